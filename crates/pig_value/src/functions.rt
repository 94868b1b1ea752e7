ghost use Rattle.std.specs.Prelude.{◌≡◌};
ghost use Rattle.pig_value.specs.Functions.{function_name, function_named};

/// A function of the language.
#[derive(Debug, Clone, Copy, PartialEq, Eq, Drop)]
pub enum Function {
    Count,
    CountStar,
    Sum,
    Min,
    Max,
    Size,
    Concat,
    IsEmpty,
    Tokenize,
    Substring,
    StartsWith,
    EndsWith,
    IndexOf,
    Abs,
    ToTuple,
    /// Makes a bag of its arguments. Where they are tuples, `width` is their number of fields: a null among
    /// them stands for a tuple of that many nulls.
    ToBag { width: Option<u32> },
}

impl Function {
    /// The function of a name, in just these letters. TOBAG is given without a width.
    #[tactic(auto, unfolding(crate::specs::Functions::function_named))]
    pub fn named(name: &str) -> Option<Function>
        ensures { result ≡ function_named name.now }
    {
        match name {
            "COUNT" => Some(Function::Count),
            "COUNT_STAR" => Some(Function::CountStar),
            "SUM" => Some(Function::Sum),
            "MIN" => Some(Function::Min),
            "MAX" => Some(Function::Max),
            "SIZE" => Some(Function::Size),
            "CONCAT" => Some(Function::Concat),
            "IsEmpty" => Some(Function::IsEmpty),
            "TOKENIZE" => Some(Function::Tokenize),
            "SUBSTRING" => Some(Function::Substring),
            "STARTSWITH" => Some(Function::StartsWith),
            "ENDSWITH" => Some(Function::EndsWith),
            "INDEXOF" => Some(Function::IndexOf),
            "ABS" => Some(Function::Abs),
            "TOTUPLE" => Some(Function::ToTuple),
            "TOBAG" => Some(Function::ToBag { width: None }),
            _ => None,
        }
    }

    /// The name by which scripts call the function.
    pub fn name(&self) -> &'static str
        ensures { result.now ≡ function_name self.now }
    {
        match self {
            Function::Count => "COUNT",
            Function::CountStar => "COUNT_STAR",
            Function::Sum => "SUM",
            Function::Min => "MIN",
            Function::Max => "MAX",
            Function::Size => "SIZE",
            Function::Concat => "CONCAT",
            Function::IsEmpty => "IsEmpty",
            Function::Tokenize => "TOKENIZE",
            Function::Substring => "SUBSTRING",
            Function::StartsWith => "STARTSWITH",
            Function::EndsWith => "ENDSWITH",
            Function::IndexOf => "INDEXOF",
            Function::Abs => "ABS",
            Function::ToTuple => "TOTUPLE",
            Function::ToBag { .. } => "TOBAG",
        }
    }
}

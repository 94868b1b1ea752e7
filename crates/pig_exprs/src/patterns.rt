// Patterns of tokens by their forms, for slices of tokens. Who uses one has its types in scope.

/// The token of a keyword, as a pattern.
#[macro_export]
macro_rules! word {
    ($word:ident) => {
        Token {
            form: TokenForm::Keyword(Keyword::$word),
            ..
        }
    };
}

/// The token of a symbol, as a pattern.
#[macro_export]
macro_rules! symbol {
    ($symbol:ident) => {
        Token {
            form: TokenForm::Symbol(Symbol::$symbol),
            ..
        }
    };
}

/// A token of a form, by a pattern of what the form holds.
#[macro_export]
macro_rules! form {
    ($form:ident($held:pat)) => {
        Token {
            form: TokenForm::$form($held),
            ..
        }
    };
}

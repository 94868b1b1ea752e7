//! The texts of waves.
ghost use Rattle.std.specs.Prelude.{◌≡◌, ◌++◌, [], codes, OnOk, if◌then◌else◌};
ghost use Rattle.pig_explain.specs.NodeTexts.{number_text};
ghost use Rattle.pig_explain.specs.WaveTexts.{head_line, wave_text, waves_text};

use crate::nodes::put_place;
use crate::puts::{put, put_number};
use pig_physical::{WaveHead, WaveKind};
use std::alloc::AllocError;

// Waves in turn, a line for each. `order` tells by which numbers their nodes are printed.
pub fn put_waves(order: &[usize], heads: &[WaveHead], out: &mut Vec<u8>) -> Result<(), AllocError>
    ensures { OnOk result (out.new.items ≡ out.old.items ++ waves_text order.now 0 heads.now) }
{
    for number in 0..heads.len() {
        put_head(order, number as u64, heads[number], out)?;
    }
    Ok(())
}

fn put_head(
    order: &[usize],
    number: u64,
    head: WaveHead,
    out: &mut Vec<u8>,
) -> Result<(), AllocError>
    ensures { OnOk result (out.new.items ≡ out.old.items ++ head_line order.now number head) }
{
    put_number(number, out)?;
    put_wave(order, head.node, head.kind, out)?;
    put(combine_word(head.combine), out)?;
    put(b"\n", out)
}

fn put_wave(order: &[usize], node: u32, kind: WaveKind, out: &mut Vec<u8>) -> Result<(), AllocError>
    ensures { OnOk result (out.new.items ≡ out.old.items ++ wave_text order.now node kind) }
{
    match kind {
        WaveKind::Map => put_word(b" map ", order, node, out),
        WaveKind::Reduce => put_word(b" reduce ", order, node, out),
        WaveKind::Copy => put_word(b" copy ", order, node, out),
        WaveKind::Probe => put_word(b" probe ", order, node, out),
        WaveKind::Rank => put_word(b" rank ", order, node, out),
        WaveKind::Store => put(b" store", out),
    }
}

fn put_word(word: &[u8], order: &[usize], node: u32, out: &mut Vec<u8>) -> Result<(), AllocError>
    ensures { OnOk result (out.new.items
        ≡ out.old.items ++ word.now ++ number_text order.now node) }
{
    put(word, out)?;
    put_place(order, node as usize, out)
}

fn combine_word(combine: bool) -> &'static [u8]
    ensures { result.now ≡ (if combine then codes " combine" else []) }
{
    if combine { b" combine" } else { b"" }
}

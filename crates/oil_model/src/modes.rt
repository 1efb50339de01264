//! Application modes, and the modes in which an object is autostarted.
ghost use Rattle.std.specs.Prelude.{◌≡◌, ◌≤◌, ◌<◌, ◌^◌, ◌-◌, [], length, IfOk};
ghost use Rattle.oil_model.specs.{Rules.{beyond_limits}, Systems.{modes, number_in, mode_bits, autostart}};

use crate::look_up::{has, is_named, word_of};
use crate::names::default_mode;
use crate::objects::{is_other_mode, is_started, start};
use oil_tree::{Attr, Object};
use osek_values::{Memory, Name, Seq, copied};
use std::alloc::Global;

fn mode_names(alloc: Global, objects: &[Object]) -> Result<Seq<Name>, Memory>
    ensures { IfOk result (λ names. names ≡ modes objects.now) }
{
    let mut names = Vec::new(alloc);
    names.push(default_mode(alloc)?)?;
    for object in objects {
        if is_other_mode(object) {
            names.push(copied(alloc, &object.name)?)?;
        }
    }
    Ok(Seq::of(names))
}

/// The names of the modes, OSDEFAULTAPPMODE first.
pub fn modes(alloc: Global, objects: &[Object]) -> Result<Seq<Name>, Memory>
    requires { beyond_limits objects.now ≡ [] }
    ensures is { IfOk result (λ names. names ≡ modes objects.now) }
    ensures few { IfOk result (λ names. length names ≤ 8) }
{
    let names = mode_names(alloc, objects)?;
    Ok(names)
}

// The number of a mode by its name, or 0.
fn number_in(names: &[Name], name: &[u8]) -> usize
    requires { length names.now ≤ 8 }
    ensures is { result ≡ number_in names.now name.now }
    ensures within { result < 8 }
{
    for i in 0..names.len() {
        if names[i].as_bytes() == name {
            return i;
        }
    }
    0
}

fn bit(mode: usize) -> u8
    requires { mode < 8 }
    ensures { result ≡ 2 ^ mode }
{
    match mode {
        0 => 1,
        1 => 2,
        2 => 4,
        3 => 8,
        4 => 16,
        5 => 32,
        6 => 64,
        _ => 128,
    }
}

fn all_bits(modes: usize) -> u8
    requires { modes ≤ 8 }
    ensures { result ≡ 2 ^ modes - 1 }
{
    match modes {
        0 => 0,
        1 => 1,
        2 => 3,
        3 => 7,
        4 => 15,
        5 => 31,
        6 => 63,
        7 => 127,
        _ => 255,
    }
}

fn mode_bits(modes: &[Name], attrs: &[Attr]) -> u8
    requires { length modes.now ≤ 8 }
    ensures { result ≡ mode_bits 0 modes.now attrs.now }
{
    let mut bits = 0;
    for attr in attrs {
        if is_named(b"APPMODE", attr) {
            bits |= bit(number_in(modes, word_of(&attr.value)));
        }
    }
    bits
}

/// The modes in which an object is autostarted, as bits.
pub fn autostart(modes: &[Name], attrs: &[Attr]) -> u8
    requires { length modes.now ≤ 8 }
    ensures { result ≡ autostart modes.now attrs.now }
{
    if is_started(attrs) {
        let inside = start(attrs);
        if has(b"APPMODE", inside) {
            mode_bits(modes, inside)
        } else {
            all_bits(modes.len())
        }
    } else {
        0
    }
}

//! The lines of a script, each with a reader of its own.

ghost use Rattle.std.specs.Prelude.{◌≡◌, ◌^◌, drop, nat_le, IfOk};
ghost use Rattle.std.specs.List.{list_all};
ghost use Rattle.xl_script.specs.Placing.{end_of};
ghost use Rattle.xl_script.specs.Texts.{words_of};
ghost use Rattle.xl_nested_script.specs.Lines.{ends_of, event_ends, gmap_line, gmap_words, gunmap_line, gunmap_words, in_turn, is_head, line_named, line_of, name_of, own_line, placed, run_line, user_perm, user_perm_in, vmap_line, vmap_words, vunmap_line, vunmap_words};
ghost use Rattle.xl_nested_script.specs.Scripts.{HasLimits};

use crate::command::{Line, NestCommand};
use crate::head::head_line;
use xl_model::{Order, Perm};
use xl_nested_model::NestEvent;
use xl_script::reading::{
    Reason, address, count, count_word, is, needed, next_at, number, order, perm,
};

/// The lines of a script, by their first words.
#[derive(Clone, Copy)]
pub(crate) enum Name {
    Guest,
    GMap,
    GUnmap,
    VMap,
    VUnmap,
    Run,
}

/// A permission with u: G-stage leaves need it.
fn for_users(perm: Perm) -> Result<Perm, Reason>
    ensures { result ≡ user_perm perm }
{
    if perm.u { Ok(perm) } else { Err(Reason::Perm) }
}

/// A permission of the host.
fn user_perm(word: &[u8]) -> Result<Perm, Reason>
    ensures { result ≡ user_perm_in word.now }
{
    for_users(perm(word)?)
}

/// A map at the host, by its four words.
#[tactic(auto, unfolding(crate::specs::Lines::gmap_words))]
fn gmap_by(gaddr: &[u8], size: &[u8], perm: &[u8], n: &[u8]) -> Result<NestCommand, Reason>
    ensures { result ≡ gmap_words gaddr.now size.now perm.now n.now }
{
    let first = NestEvent::GMap {
        gaddr: address(gaddr)?,
        order: order(size)?,
        perm: user_perm(perm)?,
    };
    Ok(NestCommand::Events {
        first,
        n: count(n)?,
    })
}

/// `gmap GADDR ORDER PERM [N]`, by its words after the first.
fn gmap_line(line: &[u8]) -> Result<NestCommand, Reason>
    ensures { result ≡ gmap_line (drop 1 (words_of line.now)) }
{
    let (gaddr, at) = needed(line, 1)?;
    let (size, at) = needed(line, at)?;
    let (perm, at) = needed(line, at)?;
    let n = count_word(line, at)?;
    gmap_by(gaddr, size, perm, n)
}

/// An unmap at the host, by its three words.
#[tactic(auto, unfolding(crate::specs::Lines::gunmap_words))]
fn gunmap_by(gaddr: &[u8], size: &[u8], n: &[u8]) -> Result<NestCommand, Reason>
    ensures { result ≡ gunmap_words gaddr.now size.now n.now }
{
    let first = NestEvent::GUnmap {
        gaddr: address(gaddr)?,
        order: order(size)?,
    };
    Ok(NestCommand::Events {
        first,
        n: count(n)?,
    })
}

/// `gunmap GADDR ORDER [N]`, by its words after the first.
fn gunmap_line(line: &[u8]) -> Result<NestCommand, Reason>
    ensures { result ≡ gunmap_line (drop 1 (words_of line.now)) }
{
    let (gaddr, at) = needed(line, 1)?;
    let (size, at) = needed(line, at)?;
    let n = count_word(line, at)?;
    gunmap_by(gaddr, size, n)
}

/// A map at the guest, by its five words.
#[tactic(auto, unfolding(crate::specs::Lines::vmap_words))]
fn vmap_by(
    va: &[u8],
    size: &[u8],
    gaddr: &[u8],
    perm_word: &[u8],
    n: &[u8],
) -> Result<NestCommand, Reason>
    ensures { result ≡ vmap_words va.now size.now gaddr.now perm_word.now n.now }
{
    let first = NestEvent::VMap {
        va: address(va)?,
        order: order(size)?,
        gaddr: address(gaddr)?,
        perm: perm(perm_word)?,
    };
    Ok(NestCommand::Events {
        first,
        n: count(n)?,
    })
}

/// `vmap VA ORDER GADDR PERM [N]`, by its words after the first.
fn vmap_line(line: &[u8]) -> Result<NestCommand, Reason>
    ensures { result ≡ vmap_line (drop 1 (words_of line.now)) }
{
    let (va, at) = needed(line, 1)?;
    let (size, at) = needed(line, at)?;
    let (gaddr, at) = needed(line, at)?;
    let (perm, at) = needed(line, at)?;
    let n = count_word(line, at)?;
    vmap_by(va, size, gaddr, perm, n)
}

/// An unmap at the guest, by its three words.
#[tactic(auto, unfolding(crate::specs::Lines::vunmap_words))]
fn vunmap_by(va: &[u8], size: &[u8], n: &[u8]) -> Result<NestCommand, Reason>
    ensures { result ≡ vunmap_words va.now size.now n.now }
{
    let first = NestEvent::VUnmap {
        va: address(va)?,
        order: order(size)?,
    };
    Ok(NestCommand::Events {
        first,
        n: count(n)?,
    })
}

/// `vunmap VA ORDER [N]`, by its words after the first.
fn vunmap_line(line: &[u8]) -> Result<NestCommand, Reason>
    ensures { result ≡ vunmap_line (drop 1 (words_of line.now)) }
{
    let (va, at) = needed(line, 1)?;
    let (size, at) = needed(line, at)?;
    let n = count_word(line, at)?;
    vunmap_by(va, size, n)
}

/// `run N` or `run rest`, by its words after the first.
fn run_line(line: &[u8]) -> Result<NestCommand, Reason>
    ensures { result ≡ run_line (drop 1 (words_of line.now)) }
{
    let (n, at) = needed(line, 1)?;
    if next_at(line, at).is_some() {
        return Err(Reason::WordCount);
    }
    if is(n, b"rest") {
        return Ok(NestCommand::RunRest);
    }
    let n = number(n, 1, 4_294_967_295)?;
    Ok(NestCommand::Run { n })
}

/// Whether blocks that follow one another end by the last address of 64 bits.
fn fits(address: u64, order: Order, n: u32) -> bool
    ensures { result ≡ nat_le (end_of address order n) (2 ^ 64) }
{
    (n as u64 * order.bytes()).saturating_sub(1) <= u64::MAX - address
}

/// Whether all that events name lies in 64 bits.
fn event_fits(first: NestEvent, n: u32) -> bool
    ensures { result ≡ list_all (λ e. nat_le e (2 ^ 64)) (event_ends first n) }
{
    match first {
        NestEvent::Access { .. } => true,
        NestEvent::GMap { gaddr, order, .. } => fits(gaddr, order, n),
        NestEvent::GUnmap { gaddr, order } => fits(gaddr, order, n),
        NestEvent::VMap {
            va,
            order,
            gaddr,
            ..
        } => fits(va, order, n) && fits(gaddr, order, n),
        NestEvent::VUnmap { va, order } => fits(va, order, n),
    }
}

/// The same of a command.
fn command_fits(command: NestCommand) -> bool
    ensures { result ≡ list_all (λ e. nat_le e (2 ^ 64)) (ends_of command) }
{
    match command {
        NestCommand::Events { first, n } => event_fits(first, n),
        NestCommand::Run { .. } => true,
        NestCommand::RunRest => true,
    }
}

/// A command, where all that it names lies in 64 bits.
#[tactic(auto, unfolding(crate::specs::Lines::placed))]
fn placed(command: NestCommand) -> Result<NestCommand, Reason>
    ensures { result ≡ placed command }
{
    if command_fits(command) {
        Ok(command)
    } else {
        Err(Reason::PastTheEnd)
    }
}

/// The line that a first word names.
#[tactic(auto, unfolding(crate::specs::Lines::name_of))]
fn name_of(word: &[u8]) -> Result<Name, Reason>
    ensures { result ≡ name_of word.now }
{
    if is(word, b"guest") {
        Ok(Name::Guest)
    } else if is(word, b"gmap") {
        Ok(Name::GMap)
    } else if is(word, b"gunmap") {
        Ok(Name::GUnmap)
    } else if is(word, b"vmap") {
        Ok(Name::VMap)
    } else if is(word, b"vunmap") {
        Ok(Name::VUnmap)
    } else if is(word, b"run") {
        Ok(Name::Run)
    } else {
        Err(Reason::FirstWord)
    }
}

/// Whether a line is a head.
fn is_head(name: Name) -> bool
    ensures { result ≡ is_head name }
{
    matches!(name, Name::Guest)
}

/// The name, where a head comes first and no later line is one.
fn in_turn(opened: bool, name: Name) -> Result<Name, Reason>
    ensures { result ≡ in_turn opened name }
{
    match (opened, is_head(name)) {
        (true, true) => Err(Reason::Head),
        (true, false) => Ok(name),
        (false, true) => Ok(name),
        (false, false) => Err(Reason::Head),
    }
}

/// A command as a line.
fn own(command: NestCommand) -> Result<Line, Reason>
    ensures value { result ≡ own_line command }
    ensures limits { IfOk result HasLimits }
{
    Ok(Line::Own(placed(command)?))
}

/// The line of a name, by its words after the first.
fn line_named(name: Name, line: &[u8]) -> Result<Line, Reason>
    ensures value { result ≡ line_named name (drop 1 (words_of line.now)) }
    ensures limits { IfOk result HasLimits }
{
    match name {
        Name::Guest => Ok(Line::Head(head_line(line)?)),
        Name::GMap => own(gmap_line(line)?),
        Name::GUnmap => own(gunmap_line(line)?),
        Name::VMap => own(vmap_line(line)?),
        Name::VUnmap => own(vunmap_line(line)?),
        Name::Run => own(run_line(line)?),
    }
}

/// A line, by its first word and the words after it, before the head or after it.
#[tactic(auto, unfolding(crate::specs::Lines::line_of))]
pub(crate) fn line_of(opened: bool, first: &[u8], line: &[u8]) -> Result<Line, Reason>
    ensures value { result ≡ line_of opened first.now (drop 1 (words_of line.now)) }
    ensures limits { IfOk result HasLimits }
{
    let name = in_turn(opened, name_of(first)?)?;
    line_named(name, line)
}

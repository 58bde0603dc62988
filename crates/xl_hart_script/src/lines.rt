//! The lines of a script, each with a reader of its own.

ghost use Rattle.std.specs.Prelude.{◌≡◌, ◌^◌, drop, nat_le, IfOk};
ghost use Rattle.xl_script.specs.Placing.{end_of};
ghost use Rattle.xl_script.specs.Texts.{words_of};
ghost use Rattle.xl_hart_script.specs.Lines.{events as events_of, hart_line, in_turn, is_head, leaves_line, leaves_words, line_named, line_of, map_line, move_line, move_words, name_of, only_number, own_fits, own_line, placed, protect_line, run_line, space_line, take_line, unmap_line, unmap_words};
ghost use Rattle.xl_hart_script.specs.Scripts.{HasLimits};

use crate::command::{HartCommand, Line};
use crate::head::head_line;
use xl_hart_model::HartEvent;
use xl_model::{Event, Order, Perm};
use xl_script::reading::{
    Reason, address, count, count_word, is, needed, next_at, number, order, perm, short,
};

/// The lines of a script, by their first words.
#[derive(Clone, Copy)]
pub(crate) enum Name {
    Harts,
    Hart,
    Take,
    Map,
    Unmap,
    Protect,
    Move,
    Space,
    Run,
}

/// Leaves of one order and permission, whose blocks follow one another.
#[derive(Clone, Copy)]
pub(crate) struct Leaves {
    pub(crate) space: u16,
    pub(crate) va: u64,
    pub(crate) order: Order,
    pub(crate) perm: Perm,
    pub(crate) n: u32,
}

/// `n` events of the current hart, of which `event` is the first.
fn events(event: Event, n: u32) -> HartCommand
    ensures { result ≡ events_of event n }
{
    let first = HartEvent::Own { event };
    HartCommand::Events { first, n }
}

/// Leaves, by their five words.
#[tactic(auto, unfolding(crate::specs::Lines::leaves_words))]
fn leaves_by(
    space: &[u8],
    addr: &[u8],
    size: &[u8],
    perm_word: &[u8],
    n: &[u8],
) -> Result<Leaves, Reason>
    ensures { result ≡ leaves_words space.now addr.now size.now perm_word.now n.now }
{
    Ok(Leaves {
        space: short(space)?,
        va: address(addr)?,
        order: order(size)?,
        perm: perm(perm_word)?,
        n: count(n)?,
    })
}

/// `SPACE ADDR ORDER PERM [N]`, the words after the first.
fn leaves_line(line: &[u8]) -> Result<Leaves, Reason>
    ensures { result ≡ leaves_line (drop 1 (words_of line.now)) }
{
    let (space, at) = needed(line, 1)?;
    let (addr, at) = needed(line, at)?;
    let (size, at) = needed(line, at)?;
    let (perm, at) = needed(line, at)?;
    let n = count_word(line, at)?;
    leaves_by(space, addr, size, perm, n)
}

/// `map SPACE ADDR ORDER PERM [N]`, by its words after the first.
fn map_line(line: &[u8]) -> Result<HartCommand, Reason>
    ensures { result ≡ map_line (drop 1 (words_of line.now)) }
{
    let Leaves {
        space,
        va,
        order,
        perm,
        n,
    } = leaves_line(line)?;
    let first = Event::Map {
        space,
        va,
        order,
        perm,
    };
    Ok(events(first, n))
}

/// `protect SPACE ADDR ORDER PERM [N]`, by its words after the first.
fn protect_line(line: &[u8]) -> Result<HartCommand, Reason>
    ensures { result ≡ protect_line (drop 1 (words_of line.now)) }
{
    let Leaves {
        space,
        va,
        order,
        perm,
        n,
    } = leaves_line(line)?;
    let first = Event::Protect {
        space,
        va,
        order,
        perm,
    };
    Ok(events(first, n))
}

/// An unmap, by its four words.
#[tactic(auto, unfolding(crate::specs::Lines::unmap_words))]
fn unmap_by(space: &[u8], addr: &[u8], size: &[u8], n: &[u8]) -> Result<HartCommand, Reason>
    ensures { result ≡ unmap_words space.now addr.now size.now n.now }
{
    let first = Event::Unmap {
        space: short(space)?,
        va: address(addr)?,
        order: order(size)?,
    };
    Ok(events(first, count(n)?))
}

/// `unmap SPACE ADDR ORDER [N]`, by its words after the first.
fn unmap_line(line: &[u8]) -> Result<HartCommand, Reason>
    ensures { result ≡ unmap_line (drop 1 (words_of line.now)) }
{
    let (space, at) = needed(line, 1)?;
    let (addr, at) = needed(line, at)?;
    let (size, at) = needed(line, at)?;
    let n = count_word(line, at)?;
    unmap_by(space, addr, size, n)
}

/// A move, by its five words.
#[tactic(auto, unfolding(crate::specs::Lines::move_words))]
fn move_by(
    space: &[u8],
    from: &[u8],
    to: &[u8],
    size: &[u8],
    n: &[u8],
) -> Result<HartCommand, Reason>
    ensures { result ≡ move_words space.now from.now to.now size.now n.now }
{
    let first = Event::Move {
        space: short(space)?,
        from: address(from)?,
        to: address(to)?,
        order: order(size)?,
    };
    Ok(events(first, count(n)?))
}

/// `move SPACE FROM TO ORDER [N]`, by its words after the first.
fn move_line(line: &[u8]) -> Result<HartCommand, Reason>
    ensures { result ≡ move_line (drop 1 (words_of line.now)) }
{
    let (space, at) = needed(line, 1)?;
    let (from, at) = needed(line, at)?;
    let (to, at) = needed(line, at)?;
    let (size, at) = needed(line, at)?;
    let n = count_word(line, at)?;
    move_by(space, from, to, size, n)
}

/// The one word of a line after the first: a number from 0 to 65535.
fn only_number(line: &[u8]) -> Result<u16, Reason>
    ensures { result ≡ only_number (drop 1 (words_of line.now)) }
{
    let (word, at) = needed(line, 1)?;
    if next_at(line, at).is_some() {
        return Err(Reason::WordCount);
    }
    short(word)
}

/// `space SPACE`, by its words after the first.
fn space_line(line: &[u8]) -> Result<HartCommand, Reason>
    ensures { result ≡ space_line (drop 1 (words_of line.now)) }
{
    let space = only_number(line)?;
    Ok(events(Event::Space { space }, 1))
}

/// `hart H`, by its words after the first.
fn hart_line(line: &[u8]) -> Result<HartCommand, Reason>
    ensures { result ≡ hart_line (drop 1 (words_of line.now)) }
{
    let hart = only_number(line)?;
    let first = HartEvent::Hart { hart };
    Ok(HartCommand::Events { first, n: 1 })
}

/// `take H`, by its words after the first.
fn take_line(line: &[u8]) -> Result<HartCommand, Reason>
    ensures { result ≡ take_line (drop 1 (words_of line.now)) }
{
    let hart = only_number(line)?;
    let first = HartEvent::Take { hart };
    Ok(HartCommand::Events { first, n: 1 })
}

/// `run N` or `run rest`, by its words after the first.
fn run_line(line: &[u8]) -> Result<HartCommand, Reason>
    ensures { result ≡ run_line (drop 1 (words_of line.now)) }
{
    let (n, at) = needed(line, 1)?;
    if next_at(line, at).is_some() {
        return Err(Reason::WordCount);
    }
    if is(n, b"rest") {
        return Ok(HartCommand::RunRest);
    }
    let n = number(n, 1, 4_294_967_295)?;
    Ok(HartCommand::Run { n })
}

/// Whether blocks that follow one another end by the last address of 64 bits.
fn fits(address: u64, order: Order, n: u32) -> bool
    ensures { result ≡ nat_le (end_of address order n) (2 ^ 64) }
{
    (n as u64 * order.bytes()).saturating_sub(1) <= u64::MAX - address
}

/// Whether all that `n` events name lies in 64 bits.
fn own_fits(event: Event, n: u32) -> bool
    ensures { result ≡ own_fits event n }
{
    match event {
        Event::Map { va, order, .. } => fits(va, order, n),
        Event::Unmap { va, order, .. } => fits(va, order, n),
        Event::Protect { va, order, .. } => fits(va, order, n),
        Event::Move {
            from,
            to,
            order,
            ..
        } => fits(from, order, n) && fits(to, order, n),
        _ => true,
    }
}

/// A command, where all that it names lies in 64 bits.
#[tactic(auto, unfolding(crate::specs::Lines::placed))]
fn placed(command: HartCommand) -> Result<HartCommand, Reason>
    ensures { result ≡ placed command }
{
    let HartCommand::Events { first, n } = command else {
        return Ok(command);
    };
    let HartEvent::Own { event } = first else {
        return Ok(command);
    };
    if own_fits(event, n) {
        Ok(command)
    } else {
        Err(Reason::PastTheEnd)
    }
}

/// The line that a first word names.
#[tactic(auto, unfolding(crate::specs::Lines::name_of))]
fn name_of(word: &[u8]) -> Result<Name, Reason>
    ensures { result ≡ name_of word.now }
{
    if is(word, b"harts") {
        Ok(Name::Harts)
    } else if is(word, b"hart") {
        Ok(Name::Hart)
    } else if is(word, b"take") {
        Ok(Name::Take)
    } else if is(word, b"map") {
        Ok(Name::Map)
    } else if is(word, b"unmap") {
        Ok(Name::Unmap)
    } else if is(word, b"protect") {
        Ok(Name::Protect)
    } else if is(word, b"move") {
        Ok(Name::Move)
    } else if is(word, b"space") {
        Ok(Name::Space)
    } else if is(word, b"run") {
        Ok(Name::Run)
    } else {
        Err(Reason::FirstWord)
    }
}

/// Whether a line is a head.
fn is_head(name: Name) -> bool
    ensures { result ≡ is_head name }
{
    matches!(name, Name::Harts)
}

/// The name, where a head comes first and no later line is one.
fn in_turn(opened: bool, name: Name) -> Result<Name, Reason>
    ensures { result ≡ in_turn opened name }
{
    match (opened, is_head(name)) {
        (true, true) => Err(Reason::Head),
        (true, false) => Ok(name),
        (false, true) => Ok(name),
        (false, false) => Err(Reason::Head),
    }
}

/// A command as a line.
fn own(command: HartCommand) -> Result<Line, Reason>
    ensures value { result ≡ own_line command }
    ensures limits { IfOk result HasLimits }
{
    Ok(Line::Own(placed(command)?))
}

/// The line of a name, by its words after the first.
fn line_named(name: Name, line: &[u8]) -> Result<Line, Reason>
    ensures value { result ≡ line_named name (drop 1 (words_of line.now)) }
    ensures limits { IfOk result HasLimits }
{
    match name {
        Name::Harts => Ok(Line::Head(head_line(line)?)),
        Name::Hart => own(hart_line(line)?),
        Name::Take => own(take_line(line)?),
        Name::Map => own(map_line(line)?),
        Name::Unmap => own(unmap_line(line)?),
        Name::Protect => own(protect_line(line)?),
        Name::Move => own(move_line(line)?),
        Name::Space => own(space_line(line)?),
        Name::Run => own(run_line(line)?),
    }
}

/// A line, by its first word and the words after it, before the head or after it.
#[tactic(auto, unfolding(crate::specs::Lines::line_of))]
pub(crate) fn line_of(opened: bool, first: &[u8], line: &[u8]) -> Result<Line, Reason>
    ensures value { result ≡ line_of opened first.now (drop 1 (words_of line.now)) }
    ensures limits { IfOk result HasLimits }
{
    let name = in_turn(opened, name_of(first)?)?;
    line_named(name, line)
}

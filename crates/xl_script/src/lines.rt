//! The lines of a script, each with a reader of its own.

ghost use Rattle.std.specs.Prelude.{◌≡◌, ◌∷◌, [], ◌≤◌, ◌+◌, ◌*◌, ◌^◌, MatchResult, IfOk, nat_le};
ghost use Rattle.xl_script.specs.Texts.{words_of};
ghost use Rattle.xl_script.specs.Placing.{end_of, ends_of};
ghost use Rattle.xl_script.specs.Commands.{checked_leaves, leaves_of, map_line, protect_line, unmap_words, unmap_line, move_words, move_line, space_line, fence_all, fence_space, fence_addr, fence_page, fence_by, fence_line, area_at, demand_words, demand_line, run_line, named, placed};

use crate::reading::{Reason, address, count, is, number, order, perm, short};
use crate::text::next_word;
use xl_model::{Area, Command, Order, Perm, Scope};

/// The most pages of an area.
const AREA_PAGES: u64 = 1 << 45;

/// The number of 4 KiB pages in 64 bits.
const PAGES: u64 = 1 << 52;

/// Leaves of one order and permission, whose blocks follow one another.
#[derive(Clone, Copy)]
pub(crate) struct Leaves {
    pub(crate) space: u16,
    pub(crate) va: u64,
    pub(crate) order: Order,
    pub(crate) perm: Perm,
    pub(crate) n: u32,
}

/// The next word of a line that needs one more, and what follows it.
fn needed(line: &[u8]) -> Result<(&[u8], &[u8]), Reason>
    ensures { MatchResult result (λ found. words_of line.now ≡ found.0.now ∷ words_of found.1.now)
        (λ why. (words_of line.now ≡ []) × (why ≡ Reason.WordCount)) }
{
    next_word(line).ok_or(Reason::WordCount)
}

/// Leaves, by their five words.
#[tactic(auto, unfolding(crate::specs::Commands::checked_leaves))]
fn leaves_by(
    space_word: &[u8],
    addr: &[u8],
    size: &[u8],
    perm_word: &[u8],
    n: &[u8],
) -> Result<Leaves, Reason>
    ensures { result ≡ checked_leaves space_word.now addr.now size.now perm_word.now n.now }
{
    Ok(Leaves {
        space: short(space_word)?,
        va: address(addr)?,
        order: order(size)?,
        perm: perm(perm_word)?,
        n: count(n)?,
    })
}

/// `SPACE ADDR ORDER PERM [N]`
fn leaves_line(rest: &[u8]) -> Result<Leaves, Reason>
    ensures { result ≡ leaves_of (words_of rest.now) }
{
    let (space, rest) = needed(rest)?;
    let (addr, rest) = needed(rest)?;
    let (size, rest) = needed(rest)?;
    let (perm, rest) = needed(rest)?;
    let Some((n, rest)) = next_word(rest) else {
        return leaves_by(space, addr, size, perm, b"1");
    };
    if next_word(rest).is_some() {
        return Err(Reason::WordCount);
    }
    leaves_by(space, addr, size, perm, n)
}

/// `map SPACE ADDR ORDER PERM [N]`: what follows its first word.
fn map_line(rest: &[u8]) -> Result<Command, Reason>
    ensures { result ≡ map_line (words_of rest.now) }
{
    let Leaves {
        space,
        va,
        order,
        perm,
        n,
    } = leaves_line(rest)?;
    Ok(Command::Map {
        space,
        va,
        order,
        perm,
        n,
    })
}

/// `protect SPACE ADDR ORDER PERM [N]`: what follows its first word.
fn protect_line(rest: &[u8]) -> Result<Command, Reason>
    ensures { result ≡ protect_line (words_of rest.now) }
{
    let Leaves {
        space,
        va,
        order,
        perm,
        n,
    } = leaves_line(rest)?;
    Ok(Command::Protect {
        space,
        va,
        order,
        perm,
        n,
    })
}

/// An unmap, by its four words.
#[tactic(auto, unfolding(crate::specs::Commands::unmap_words))]
fn unmap_by(space_word: &[u8], addr: &[u8], size: &[u8], n: &[u8]) -> Result<Command, Reason>
    ensures { result ≡ unmap_words space_word.now addr.now size.now n.now }
{
    Ok(Command::Unmap {
        space: short(space_word)?,
        va: address(addr)?,
        order: order(size)?,
        n: count(n)?,
    })
}

/// `unmap SPACE ADDR ORDER [N]`: what follows its first word.
fn unmap_line(rest: &[u8]) -> Result<Command, Reason>
    ensures { result ≡ unmap_line (words_of rest.now) }
{
    let (space, rest) = needed(rest)?;
    let (addr, rest) = needed(rest)?;
    let (size, rest) = needed(rest)?;
    let Some((n, rest)) = next_word(rest) else {
        return unmap_by(space, addr, size, b"1");
    };
    if next_word(rest).is_some() {
        return Err(Reason::WordCount);
    }
    unmap_by(space, addr, size, n)
}

/// A move, by its five words.
#[tactic(auto, unfolding(crate::specs::Commands::move_words))]
fn move_by(
    space_word: &[u8],
    from: &[u8],
    to: &[u8],
    size: &[u8],
    n: &[u8],
) -> Result<Command, Reason>
    ensures { result ≡ move_words space_word.now from.now to.now size.now n.now }
{
    Ok(Command::Move {
        space: short(space_word)?,
        from: address(from)?,
        to: address(to)?,
        order: order(size)?,
        n: count(n)?,
    })
}

/// `move SPACE FROM TO ORDER [N]`: what follows its first word.
fn move_line(rest: &[u8]) -> Result<Command, Reason>
    ensures { result ≡ move_line (words_of rest.now) }
{
    let (space, rest) = needed(rest)?;
    let (from, rest) = needed(rest)?;
    let (to, rest) = needed(rest)?;
    let (size, rest) = needed(rest)?;
    let Some((n, rest)) = next_word(rest) else {
        return move_by(space, from, to, size, b"1");
    };
    if next_word(rest).is_some() {
        return Err(Reason::WordCount);
    }
    move_by(space, from, to, size, n)
}

/// `space SPACE`: what follows its first word.
fn space_line(rest: &[u8]) -> Result<Command, Reason>
    ensures { result ≡ space_line (words_of rest.now) }
{
    let (word, rest) = needed(rest)?;
    if next_word(rest).is_some() {
        return Err(Reason::WordCount);
    }
    let space = short(word)?;
    Ok(Command::Space { space })
}

/// `fence all`: what follows these words.
fn fence_all(rest: &[u8]) -> Result<Command, Reason>
    ensures { result ≡ fence_all (words_of rest.now) }
{
    if next_word(rest).is_some() {
        return Err(Reason::WordCount);
    }
    Ok(Command::Fence { scope: Scope::All })
}

/// `fence space SPACE`: what follows its first two words.
fn fence_space(rest: &[u8]) -> Result<Command, Reason>
    ensures { result ≡ fence_space (words_of rest.now) }
{
    let (word, rest) = needed(rest)?;
    if next_word(rest).is_some() {
        return Err(Reason::WordCount);
    }
    let space = short(word)?;
    Ok(Command::Fence {
        scope: Scope::Space { space },
    })
}

/// `fence addr ADDR`: what follows its first two words.
fn fence_addr(rest: &[u8]) -> Result<Command, Reason>
    ensures { result ≡ fence_addr (words_of rest.now) }
{
    let (word, rest) = needed(rest)?;
    if next_word(rest).is_some() {
        return Err(Reason::WordCount);
    }
    let va = address(word)?;
    Ok(Command::Fence {
        scope: Scope::Addr { va },
    })
}

/// `fence page SPACE ADDR`: what follows its first two words.
fn fence_page(rest: &[u8]) -> Result<Command, Reason>
    ensures { result ≡ fence_page (words_of rest.now) }
{
    let (space_word, rest) = needed(rest)?;
    let (addr, rest) = needed(rest)?;
    if next_word(rest).is_some() {
        return Err(Reason::WordCount);
    }
    let space = short(space_word)?;
    let va = address(addr)?;
    Ok(Command::Fence {
        scope: Scope::Page { space, va },
    })
}

/// A fence, by the word that says how far it reaches, and what follows it.
#[tactic(auto, unfolding(crate::specs::Commands::fence_by))]
fn fence_by(reach: &[u8], rest: &[u8]) -> Result<Command, Reason>
    ensures { result ≡ fence_by reach.now (words_of rest.now) }
{
    if is(reach, b"all") {
        fence_all(rest)
    } else if is(reach, b"space") {
        fence_space(rest)
    } else if is(reach, b"addr") {
        fence_addr(rest)
    } else if is(reach, b"page") {
        fence_page(rest)
    } else {
        Err(Reason::FirstWord)
    }
}

/// A fence: what follows its first word.
fn fence_line(rest: &[u8]) -> Result<Command, Reason>
    ensures { result ≡ fence_line (words_of rest.now) }
{
    let (reach, rest) = needed(rest)?;
    fence_by(reach, rest)
}

/// An area of whole pages of its order.
fn area_at(space: u16, va: u64, pages: u64, order: Order, perm: Perm) -> Result<Command, Reason>
    ensures { result ≡ area_at space va pages order perm }
{
    if va % order.bytes() != 0 || pages % order.pages() != 0 {
        return Err(Reason::PastTheEnd);
    }
    let area = Area {
        space,
        page: va / 4096,
        pages,
        order,
        perm,
    };
    Ok(Command::Demand { area })
}

/// A demand, by its five words.
#[tactic(auto, unfolding(crate::specs::Commands::demand_words))]
fn demand_by(
    space_word: &[u8],
    addr: &[u8],
    pages: &[u8],
    size: &[u8],
    perm_word: &[u8],
) -> Result<Command, Reason>
    ensures { result ≡ demand_words space_word.now addr.now pages.now size.now perm_word.now }
{
    let space = short(space_word)?;
    let va = address(addr)?;
    let pages = number(pages, 1, AREA_PAGES)?;
    let order = order(size)?;
    let perm = perm(perm_word)?;
    area_at(space, va, pages, order, perm)
}

/// `demand SPACE ADDR PAGES ORDER PERM`: what follows its first word.
fn demand_line(rest: &[u8]) -> Result<Command, Reason>
    ensures { result ≡ demand_line (words_of rest.now) }
{
    let (space, rest) = needed(rest)?;
    let (addr, rest) = needed(rest)?;
    let (pages, rest) = needed(rest)?;
    let (size, rest) = needed(rest)?;
    let (perm, rest) = needed(rest)?;
    if next_word(rest).is_some() {
        return Err(Reason::WordCount);
    }
    demand_by(space, addr, pages, size, perm)
}

/// `run N` or `run rest`: what follows its first word.
fn run_line(rest: &[u8]) -> Result<Command, Reason>
    ensures { result ≡ run_line (words_of rest.now) }
{
    let (n, rest) = needed(rest)?;
    if next_word(rest).is_some() {
        return Err(Reason::WordCount);
    }
    if is(n, b"rest") {
        return Ok(Command::RunRest);
    }
    let n = number(n, 1, 4_294_967_295)?;
    Ok(Command::Run { n })
}

/// The command of a line, by its first word and what follows it.
#[tactic(auto, unfolding(crate::specs::Commands::named))]
pub(crate) fn named(first: &[u8], rest: &[u8]) -> Result<Command, Reason>
    ensures { result ≡ named first.now (words_of rest.now) }
{
    if is(first, b"map") {
        map_line(rest)
    } else if is(first, b"unmap") {
        unmap_line(rest)
    } else if is(first, b"protect") {
        protect_line(rest)
    } else if is(first, b"move") {
        move_line(rest)
    } else if is(first, b"space") {
        space_line(rest)
    } else if is(first, b"fence") {
        fence_line(rest)
    } else if is(first, b"demand") {
        demand_line(rest)
    } else if is(first, b"run") {
        run_line(rest)
    } else {
        Err(Reason::FirstWord)
    }
}

/// Whether blocks that follow one another end by the last address of 64 bits.
fn fits(va: u64, order: Order, n: u32) -> bool
    ensures { result ≡ nat_le (end_of va order n) (2 ^ 64) }
{
    (n as u64 * order.bytes()).saturating_sub(1) <= u64::MAX - va
}

/// Whether an area ends by the last address of 64 bits.
fn area_fits(area: Area) -> bool
    ensures { result ≡ nat_le ((area.page + area.pages) * 4096) (2 ^ 64) }
{
    area.page <= PAGES && area.pages <= PAGES - area.page
}

/// A command, where all that it names lies in 64 bits.
#[tactic(auto, unfolding(crate::specs::Commands::placed))]
pub(crate) fn placed(command: Command) -> Result<Command, Reason>
    ensures { result ≡ placed command }
{
    let fits = match command {
        Command::Map { va, order, n, .. } => fits(va, order, n),
        Command::Unmap { va, order, n, .. } => fits(va, order, n),
        Command::Protect { va, order, n, .. } => fits(va, order, n),
        Command::Move {
            from,
            to,
            order,
            n,
            ..
        } => fits(from, order, n) && fits(to, order, n),
        Command::Demand { area } => area_fits(area),
        _ => true,
    };
    if fits {
        Ok(command)
    } else {
        Err(Reason::PastTheEnd)
    }
}

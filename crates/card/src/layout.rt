// The order of a card's fields, as a machine that reader and writer share: what comes next, how wide it is, where its number leads.
ghost use Rattle.std.specs.Prelude.{◌≡◌, true, ℕ, ◌+◌, ◌^◌, ◌<◌, ◌≤◌, length, Ok, Some};
ghost use Rattle.card.specs.Grammar;
ghost use Rattle.card.specs.inner.Layout.{start_of, width_at, width_of, row_width, to, step_at, step_of, Sane};
ghost use Rattle.card.specs.declared.layout.Next.TheVariants.{More};
ghost use Rattle.card.specs.declared.layout.Layout.{Layout};
ghost use Rattle.card.specs.declared.layout.Phase.TheVariants.{Version, SubnetCount, SignalCount, Limit, Scale, Parent, SubnetType, PlaceCount, TransitionCount, Kind, Capacity, Tokens, Signal, ArcCount, Rank, Direction, ArcSubnet, ArcPlace, Weight};

use crate::{Counts, FormatFault, MAX_COUNT, MAX_SUBNETS, MAX_VERSION};

#[derive(Clone, Copy)]
pub enum Phase {
    Version,
    SubnetCount,
    SignalCount,
    Limit,
    Scale,
    Parent,
    SubnetType,
    PlaceCount,
    TransitionCount,
    Kind,
    Capacity,
    Tokens,
    Signal,
    ArcCount,
    Rank,
    Direction,
    ArcSubnet,
    ArcPlace,
    Weight,
}

// The fields of the header and of each row, in their order.
pub const HEADER: [Phase; 5] = [
    Phase::Version,
    Phase::SubnetCount,
    Phase::SignalCount,
    Phase::Limit,
    Phase::Scale,
];

pub const SUBNET: [Phase; 4] = [
    Phase::Parent,
    Phase::SubnetType,
    Phase::PlaceCount,
    Phase::TransitionCount,
];

pub const PLACE: [Phase; 3] = [Phase::Kind, Phase::Capacity, Phase::Tokens];

pub const TRANSITION: [Phase; 3] = [Phase::Signal, Phase::ArcCount, Phase::Rank];

pub const ARC: [Phase; 4] = [
    Phase::Direction,
    Phase::ArcSubnet,
    Phase::ArcPlace,
    Phase::Weight,
];

// The field that comes next, and what the fields before it say of those behind it: the version; how many signals there are; how many subnets
// come after this one, and its number; how many places and transitions are listed so far; how many rows of each kind come after this one;
// the capacity of the place at hand. The phase stands last, so that in Next it does not lie over a count of Counts: else the compiled
// reader keeps it in memory as one byte, loads two, and waits for that at each field.
#[derive(Clone, Copy)]
pub struct Layout {
    pub version: u16,
    pub signals: u16,
    pub subnets: u16,
    pub subnet: u16,
    pub places: u16,
    pub transitions: u16,
    pub place_rows: u16,
    pub transition_rows: u16,
    pub arc_rows: u16,
    pub capacity: u16,
    pub phase: Phase,
}

// What comes behind a field: another, or nothing, and then so much was listed. An enum of its own and no `ControlFlow`: neither case is an early end.
#[derive(Clone, Copy)]
pub enum Next {
    More(Layout),
    Done(Counts),
}

pub fn start() -> Layout
    ensures { result ≡ start_of }
{
    Layout {
        phase: Phase::Version,
        version: 0,
        signals: 0,
        subnets: 0,
        subnet: 0,
        places: 0,
        transitions: 0,
        place_rows: 0,
        transition_rows: 0,
        arc_rows: 0,
        capacity: 0,
    }
}

// The width of a field that a version brings, and none below that version.
#[tactic(auto, unfolding(crate::specs::Grammar::since))]
fn since(first: u16, width: usize, version: u16) -> usize
    ensures { (result ≡ Grammar.since first width version) × (result ≤ width) }
{
    if version < first { 0 } else { width }
}

// No field is wider than 16 bits, which is what a field of bytes can be read and written as (bits.rt).
#[tactic(auto, unfolding(crate::specs::Grammar::header, crate::specs::Grammar::subnet, crate::specs::Grammar::place, crate::specs::Grammar::transition, crate::specs::Grammar::arc))]
pub fn width_at(p: Phase, version: u16) -> usize
    ensures { (result ≡ width_at p version) × (result ≤ 16) }
{
    match p {
        Phase::Version => 4,
        Phase::SubnetCount => 6,
        Phase::SignalCount => 6,
        Phase::Limit => since(4, 8, version),
        Phase::Scale => since(5, 14, version),
        Phase::Parent => 5,
        Phase::SubnetType => 5,
        Phase::PlaceCount => 8,
        Phase::TransitionCount => 8,
        Phase::Kind => 2,
        Phase::Capacity => 8,
        Phase::Tokens => 8,
        Phase::Signal => 6,
        Phase::ArcCount => 5,
        Phase::Rank => since(3, 8, version),
        Phase::Direction => 1,
        Phase::ArcSubnet => 5,
        Phase::ArcPlace => 8,
        Phase::Weight => 8,
    }
}

pub fn width(l: Layout) -> usize
    ensures { (result ≡ width_of l) × (result ≤ 16) }
{
    width_at(l.phase, l.version)
}

// Says yes only where an arc comes next.
pub fn arc_next(l: Layout) -> bool
    ensures { result ≡ true → l.phase ≡ Direction }
{
    matches!(l.phase, Phase::Direction)
}

// What comes behind a field of an arc that has another field of the transition's arcs behind it, whatever the number. Reader and writer ask
// this first: most fields are arcs', and a `step` answers through memory.
#[tactic(auto, unfolding(crate::specs::Grammar::arc))]
pub fn arc_step(l: Layout) -> Option<Layout>
    ensures { (m : Layout) → result ≡ Some m → (v : ℕ) → Ok (More m) ≡ step_of l v }
{
    match l.phase {
        Phase::Direction => Some(Layout {
            phase: Phase::ArcSubnet,
            ..l
        }),
        Phase::ArcSubnet => Some(Layout {
            phase: Phase::ArcPlace,
            ..l
        }),
        Phase::ArcPlace => Some(Layout {
            phase: Phase::Weight,
            ..l
        }),
        Phase::Weight if 0 < l.arc_rows => Some(Layout {
            phase: Phase::Direction,
            arc_rows: l.arc_rows - 1,
            ..l
        }),
        _ => None,
    }
}

// How wide a row's fields are together. Of a constant row the compiler makes a constant.
pub fn row_width(row: &[Phase], version: u16) -> u32
    requires { length row.now ≤ 8 }
    ensures { result ≡ row_width row.now version }
{
    row.iter().map(|p| width_at(*p, version) as u32).sum()
}

// How wide an arc's fields before the weight are. Nothing tests them, so that they may be read at once.
pub fn arc_head_width() -> usize
    ensures { result ≡ width_at Direction 0 + (width_at ArcSubnet 0 + width_at ArcPlace 0) }
{
    row_width(&ARC[..3], 0) as usize
}

// What comes behind each field whose number is tested. The tests stand here one by one: with one function that answers the fault, and `?`, small
// cards were read up to a tenth slower.
#[tactic(auto, unfolding(crate::specs::Grammar::header))]
fn after_version(l: Layout, v: u16) -> Result<Next, FormatFault>
    ensures { result ≡ step_at Version l v }
{
    if v < 1 || MAX_VERSION < v {
        return Err(FormatFault::BadVersion);
    }
    Ok(Next::More(Layout {
        phase: Phase::SubnetCount,
        version: v,
        ..l
    }))
}

#[tactic(auto, unfolding(crate::specs::Grammar::header))]
fn after_subnet_count(l: Layout, v: u16) -> Result<Next, FormatFault>
    ensures { result ≡ step_at SubnetCount l v }
{
    if v < 1 || MAX_SUBNETS < v {
        return Err(FormatFault::BadSize);
    }
    Ok(Next::More(Layout {
        phase: Phase::SignalCount,
        subnets: v - 1,
        ..l
    }))
}

#[tactic(auto, unfolding(crate::specs::Grammar::header))]
fn after_signal_count(l: Layout, v: u16) -> Result<Next, FormatFault>
    ensures { result ≡ step_at SignalCount l v }
{
    if v < 1 {
        return Err(FormatFault::BadSize);
    }
    Ok(Next::More(Layout {
        phase: Phase::Limit,
        signals: v,
        ..l
    }))
}

// The main net is its own parent; any other subnet's parent is a lower one.
#[tactic(auto, unfolding(crate::specs::Grammar::subnet))]
fn after_parent(l: Layout, v: u16) -> Result<Next, FormatFault>
    ensures { result ≡ step_at Parent l v }
{
    let fits = if l.subnet == 0 { v == 0 } else { v < l.subnet };
    if !fits {
        return Err(FormatFault::BadParent);
    }
    Ok(Next::More(Layout {
        phase: Phase::SubnetType,
        ..l
    }))
}

#[tactic(auto, unfolding(crate::specs::Grammar::subnet))]
fn after_type(l: Layout, v: u16) -> Result<Next, FormatFault>
    ensures { result ≡ step_at SubnetType l v }
{
    if l.subnet == 0 && v != 0 {
        return Err(FormatFault::BadType);
    }
    Ok(Next::More(Layout {
        phase: Phase::PlaceCount,
        ..l
    }))
}

#[tactic(auto, unfolding(crate::specs::Grammar::subnet))]
fn after_place_count(l: Layout, v: u16) -> Result<Next, FormatFault>
    requires { Sane l × (v < 2 ^ width_at PlaceCount 0) }
    ensures { result ≡ step_at PlaceCount l v }
{
    if v < 1 || MAX_COUNT < l.places + v {
        return Err(FormatFault::BadCount);
    }
    Ok(Next::More(Layout {
        phase: Phase::TransitionCount,
        places: l.places + v,
        place_rows: v - 1,
        ..l
    }))
}

#[tactic(auto, unfolding(crate::specs::Grammar::subnet))]
fn after_transition_count(l: Layout, v: u16) -> Result<Next, FormatFault>
    requires { Sane l × (v < 2 ^ width_at TransitionCount 0) }
    ensures { result ≡ step_at TransitionCount l v }
{
    if v < 1 || MAX_COUNT < l.transitions + v {
        return Err(FormatFault::BadCount);
    }
    Ok(Next::More(Layout {
        phase: Phase::Kind,
        transitions: l.transitions + v,
        transition_rows: v - 1,
        ..l
    }))
}

#[tactic(auto, unfolding(crate::specs::Grammar::place))]
fn after_kind(l: Layout, v: u16) -> Result<Next, FormatFault>
    ensures { result ≡ step_at Kind l v }
{
    if l.subnet == 0 && v != 0 {
        return Err(FormatFault::BadPlace);
    }
    Ok(Next::More(Layout {
        phase: Phase::Capacity,
        ..l
    }))
}

#[tactic(auto, unfolding(crate::specs::Grammar::place))]
fn after_capacity(l: Layout, v: u16) -> Result<Next, FormatFault>
    ensures { result ≡ step_at Capacity l v }
{
    if v < 1 {
        return Err(FormatFault::BadPlace);
    }
    Ok(Next::More(Layout {
        phase: Phase::Tokens,
        capacity: v,
        ..l
    }))
}

#[tactic(auto, unfolding(crate::specs::Grammar::place))]
fn after_tokens(l: Layout, v: u16) -> Result<Next, FormatFault>
    ensures { result ≡ step_at Tokens l v }
{
    if l.capacity < v {
        return Err(FormatFault::BadPlace);
    }
    if 0 < l.place_rows {
        return Ok(Next::More(Layout {
            phase: Phase::Kind,
            place_rows: l.place_rows - 1,
            ..l
        }));
    }
    Ok(Next::More(Layout {
        phase: Phase::Signal,
        ..l
    }))
}

#[tactic(auto, unfolding(crate::specs::Grammar::transition))]
fn after_signal(l: Layout, v: u16) -> Result<Next, FormatFault>
    ensures { result ≡ step_at Signal l v }
{
    if l.signals <= v {
        return Err(FormatFault::BadTransition);
    }
    Ok(Next::More(Layout {
        phase: Phase::ArcCount,
        ..l
    }))
}

#[tactic(auto, unfolding(crate::specs::Grammar::transition))]
fn after_arc_count(l: Layout, v: u16) -> Result<Next, FormatFault>
    ensures { result ≡ step_at ArcCount l v }
{
    if v < 1 {
        return Err(FormatFault::BadTransition);
    }
    Ok(Next::More(Layout {
        phase: Phase::Rank,
        arc_rows: v - 1,
        ..l
    }))
}

// Behind an arc comes another, or a transition, or a subnet, or nothing.
#[tactic(auto, unfolding(crate::specs::Grammar::arc))]
fn after_weight(l: Layout, v: u16) -> Next
    requires { Sane l }
    ensures { Ok result ≡ step_at Weight l v }
{
    if 0 < l.arc_rows {
        return Next::More(Layout {
            phase: Phase::Direction,
            arc_rows: l.arc_rows - 1,
            ..l
        });
    }
    if 0 < l.transition_rows {
        return Next::More(Layout {
            phase: Phase::Signal,
            transition_rows: l.transition_rows - 1,
            ..l
        });
    }
    if 0 < l.subnets {
        return Next::More(Layout {
            phase: Phase::Parent,
            subnets: l.subnets - 1,
            subnet: l.subnet + 1,
            ..l
        });
    }
    Next::Done(Counts {
        subnets: l.subnet + 1,
        places: l.places,
        transitions: l.transitions,
    })
}

// A field that holds any number, and another behind it.
fn then(l: Layout, phase: Phase) -> Result<Next, FormatFault>
    ensures { result ≡ Ok (More (to l phase)) }
{
    Ok(Next::More(Layout { phase, ..l }))
}

// Where the number v of the next field leads. One `match` over the phases, of which each field has its own: no table of functions would be plainer.
#[tactic(auto, unfolding(crate::specs::Grammar::header, crate::specs::Grammar::transition, crate::specs::Grammar::arc))]
pub fn step(l: Layout, v: u16) -> Result<Next, FormatFault>
    requires { Sane l × (v < 2 ^ width_of l) }
    ensures { result ≡ step_of l v }
{
    match l.phase {
        Phase::Version => after_version(l, v),
        Phase::SubnetCount => after_subnet_count(l, v),
        Phase::SignalCount => after_signal_count(l, v),
        Phase::Limit => then(l, Phase::Scale),
        Phase::Scale => then(l, Phase::Parent),
        Phase::Parent => after_parent(l, v),
        Phase::SubnetType => after_type(l, v),
        Phase::PlaceCount => after_place_count(l, v),
        Phase::TransitionCount => after_transition_count(l, v),
        Phase::Kind => after_kind(l, v),
        Phase::Capacity => after_capacity(l, v),
        Phase::Tokens => after_tokens(l, v),
        Phase::Signal => after_signal(l, v),
        Phase::ArcCount => after_arc_count(l, v),
        Phase::Rank => then(l, Phase::Direction),
        Phase::Direction => then(l, Phase::ArcSubnet),
        Phase::ArcSubnet => then(l, Phase::ArcPlace),
        Phase::ArcPlace => then(l, Phase::Weight),
        Phase::Weight => Ok(after_weight(l, v)),
    }
}

// The fields of a sheet: each gives its value and the place after it, or the refusal of document 01.
#![tactic(auto)]

ghost use Rattle.std.specs.Prelude.{◌≡◌, ℕ, ◌+◌, ◌≤◌, ◌<◌, length};
ghost use Rattle.refusals.specs.Numbers.{number};
ghost use Rattle.sheet_types.specs.KindBytes.{kind_byte};
ghost use Rattle.sheet_fields.specs.Answers.{answer, answer_or, kind_answer};
ghost use Rattle.sheet_laws.specs.SheetLimits.{max_facts, name_length};
ghost use Rattle.sheet_laws.specs.Reading.{byte_at, word_at, count_at, set_at, kind_at, first_at, second_at, thread_at, printable, name_bytes, name_at, names_from, facts_at};
ghost use Rattle.sheet_laws.specs.NodeFields.{unused_at, below_at};

use refusals::{Refusal, Refused};
use sheet_types::{Field, Kind, Sheet};

const NAME_LENGTH: usize = 8;

const FIRST_PRINTABLE: u8 = 32;

const LAST_PRINTABLE: u8 = 126;

// A node's kind and the place after it.
#[derive(Clone, Copy)]
pub struct KindField {
    pub kind: Kind,
    pub next: usize,
}

// A byte.
fn byte_at(s: &[u8], at: usize) -> Result<Field, Refused>
    requires { at ≤ length s.now }
    ensures { answer result ≡ byte_at s.now at }
{
    if s.len() - at < 1 {
        return Err(Refusal::CutOff.at(s.len()));
    }
    Ok(Field {
        value: u16::from(s[at]),
        next: at + 1,
    })
}

// Two bytes, the low one first.
fn word_at(s: &[u8], at: usize) -> Result<Field, Refused>
    requires { at ≤ length s.now }
    ensures { answer result ≡ word_at s.now at }
{
    if s.len() - at < 2 {
        return Err(Refusal::CutOff.at(s.len()));
    }
    Ok(Field {
        value: u16::from(s[at]) + 256 * u16::from(s[at + 1]),
        next: at + 2,
    })
}

// A count from low to high, and none where the count is outside.
pub fn counted_at(s: &[u8], at: usize, low: u16, high: u16) -> Result<Option<Field>, Refused>
    requires { at ≤ length s.now }
    ensures { (n : ℕ) → answer_or n at result ≡ count_at low high n s.now at }
{
    let n = byte_at(s, at)?;
    if n.value < low || high < n.value {
        return Ok(None);
    }
    Ok(Some(n))
}

// A count from low to high, refused with its section's number.
pub fn count_at(
    s: &[u8],
    at: usize,
    low: u16,
    high: u16,
    refusal: Refusal,
) -> Result<Field, Refused>
    requires { at ≤ length s.now }
    ensures { answer result ≡ count_at low high (number refusal) s.now at }
{
    match counted_at(s, at, low, high)? {
        Some(n) => Ok(n),
        None => Err(refusal.at(at)),
    }
}

// A set of the sheet's facts: no fact from `facts` on is in it.
pub fn set_at(s: &[u8], facts: u16, at: usize) -> Result<Field, Refused>
    requires { (at ≤ length s.now) × (facts ≤ max_facts) }
    ensures { answer result ≡ set_at facts s.now at }
{
    let set = word_at(s, at)?;
    if set.value >> facts != 0 {
        return Err(Refusal::AbsentFact.at(at));
    }
    Ok(set)
}

// A node's kind.
pub fn kind_at(s: &[u8], at: usize) -> Result<KindField, Refused>
    requires { at ≤ length s.now }
    ensures { kind_answer result ≡ kind_at s.now at }
{
    let byte = byte_at(s, at)?;
    let kind = match byte.value {
        0 => Kind::Stop,
        1 => Kind::Tell,
        2 => Kind::Ask,
        3 => Kind::Both,
        4 => Kind::Either,
        _ => return Err(Refusal::WrongKind.at(at)),
    };
    Ok(KindField {
        kind,
        next: byte.next,
    })
}

// A field that is not used.
#[tactic(auto, unfolding(sheet_laws::specs::NodeFields::unused_at))]
fn unused_at(s: &[u8], at: usize) -> Result<Field, Refused>
    requires { at ≤ length s.now }
    ensures { answer result ≡ unused_at s.now at }
{
    let x = word_at(s, at)?;
    if x.value != 0 {
        return Err(Refusal::UsedField.at(at));
    }
    Ok(x)
}

// The number of a node below a bound.
#[tactic(auto, unfolding(sheet_laws::specs::NodeFields::below_at))]
fn below_at(s: &[u8], bound: u16, at: usize) -> Result<Field, Refused>
    requires { at ≤ length s.now }
    ensures { answer result ≡ below_at bound s.now at }
{
    let k = word_at(s, at)?;
    if bound <= k.value {
        return Err(Refusal::WrongNode.at(at));
    }
    Ok(k)
}

// The first field of node `number`, of this kind: a stop has none, tell and ask have a set, both and either a lower node.
#[tactic(auto, using(sheet_laws::specs::FieldLaws::first_unused, sheet_laws::specs::FieldLaws::first_set, sheet_laws::specs::FieldLaws::first_below))]
pub fn first_of_kind(
    s: &[u8],
    kind: Kind,
    facts: u16,
    number: u16,
    at: usize,
) -> Result<Field, Refused>
    requires { (at ≤ length s.now) × (facts ≤ max_facts) }
    ensures { answer result ≡ first_at (kind_byte kind) facts number s.now at }
{
    match kind {
        Kind::Stop => unused_at(s, at),
        Kind::Tell | Kind::Ask => set_at(s, facts, at),
        Kind::Both | Kind::Either => below_at(s, number, at),
    }
}

// The first field of node `number`, its kind given as a number.
#[tactic(auto, using(crate::specs::KindNumbers::least_kind_first))]
pub fn first_at(s: &[u8], kind: u16, facts: u16, number: u16, at: usize) -> Result<Field, Refused>
    requires { (at ≤ length s.now) × (facts ≤ max_facts) }
    ensures { answer result ≡ first_at kind facts number s.now at }
{
    first_of_kind(s, Kind::of(kind), facts, number, at)
}

// The second field of node `number`, of this kind: stop and tell have none, an ask has any node, both and either a lower one.
#[tactic(auto, using(sheet_laws::specs::FieldLaws::second_unused, sheet_laws::specs::FieldLaws::second_any, sheet_laws::specs::FieldLaws::second_below))]
pub fn second_of_kind(
    s: &[u8],
    kind: Kind,
    nodes: u16,
    number: u16,
    at: usize,
) -> Result<Field, Refused>
    requires { at ≤ length s.now }
    ensures { answer result ≡ second_at (kind_byte kind) nodes number s.now at }
{
    match kind {
        Kind::Stop | Kind::Tell => unused_at(s, at),
        Kind::Ask => below_at(s, nodes, at),
        Kind::Both | Kind::Either => below_at(s, number, at),
    }
}

// The second field of node `number`, its kind given as a number.
#[tactic(auto, using(crate::specs::KindNumbers::least_kind_second))]
pub fn second_at(s: &[u8], kind: u16, nodes: u16, number: u16, at: usize) -> Result<Field, Refused>
    requires { at ≤ length s.now }
    ensures { answer result ≡ second_at kind nodes number s.now at }
{
    second_of_kind(s, Kind::of(kind), nodes, number, at)
}

// A thread of a start: any node of the sheet.
pub fn thread_at(s: &[u8], nodes: u16, at: usize) -> Result<Field, Refused>
    requires { at ≤ length s.now }
    ensures { answer result ≡ thread_at nodes s.now at }
{
    let k = byte_at(s, at)?;
    if nodes <= k.value {
        return Err(Refusal::WrongNode.at(at));
    }
    Ok(k)
}

// Whether a byte may stand in a name.
fn printable(b: u8) -> bool
    ensures { result ≡ printable b }
{
    FIRST_PRINTABLE <= b && b <= LAST_PRINTABLE
}

// The bytes of a name that is all there.
#[tactic(auto, using(sheet_laws::specs::FieldLaws::name_end, sheet_laws::specs::FieldLaws::name_wrong, sheet_laws::specs::FieldLaws::name_next))]
fn name_bytes(s: &[u8], at: usize) -> Result<Field, Refused>
    requires { at + name_length ≤ length s.now }
    ensures { answer result ≡ name_bytes name_length s.now at }
{
    let end = at + NAME_LENGTH;
    for p in at..end {
        if !printable(s[p]) {
            return Err(Refusal::Unprintable.at(p));
        }
    }
    Ok(Field {
        value: NAME_LENGTH as u16,
        next: end,
    })
}

// A name.
fn name_at(s: &[u8], at: usize) -> Result<Field, Refused>
    requires { at ≤ length s.now }
    ensures { answer result ≡ name_at s.now at }
{
    if s.len() - at < NAME_LENGTH {
        return Err(Refusal::CutOff.at(s.len()));
    }
    name_bytes(s, at)
}

// The names of n facts.
#[tactic(auto, using(sheet_laws::specs::FieldLaws::names_none, sheet_laws::specs::FieldLaws::names_refused, sheet_laws::specs::FieldLaws::names_next))]
fn names_from(s: &[u8], n: u16, at: usize) -> Result<Field, Refused>
    requires { at ≤ length s.now }
    ensures { answer result ≡ names_from n n s.now at }
{
    let mut next = at;
    for i in 0..n {
        next = name_at(s, next)?.next;
    }
    Ok(Field { value: n, next })
}

// The facts: their number, after checking their names.
pub fn facts_at(s: &[u8], at: usize) -> Result<Field, Refused>
    requires { at ≤ length s.now }
    ensures { answer result ≡ facts_at s.now at }
{
    let n = count_at(s, at, 0, Sheet::MAX_FACTS, Refusal::ManyFacts)?;
    names_from(s, n.value, n.next)
}

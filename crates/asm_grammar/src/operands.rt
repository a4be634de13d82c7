//! Reads one operand of an instruction, in each form that the assembler knows. What follows it is handed back unread.
ghost use Rattle.std.specs.Prelude.{◌≡◌, ◌⊎◌, ◌<◌, IfSome};
ghost use Rattle.asm_grammar.specs.Text.{Gives};
ghost use Rattle.asm_grammar.specs.Operands.{second_digit, register_number_at, register_at, in_parentheses_at, incremented, deferred_at, decremented_at, increment_deferred_at, absolute_at, marked_size, displacement_at, displaced_at, pointer_at, place_at, index_at, indexed, addressed_at, misindexed_at, unaddressed, literal_at, immediate_at, plain_register_at, specifier_at, target_at, operand_at};

use crate::numbers::number_of;
use crate::syntax::{Place, Written};
use crate::text::after;
use crate::values::value_of;

fn second_digit_of(text: &[u8]) -> Option<(u8, &[u8])>
    ensures { Gives (λ x. (x.0, x.1.now)) result (second_digit text.now) }
{
    match text {
        [digit, rest @ ..] if b'0' <= *digit && *digit <= b'5' => Some((
            10 + (*digit - b'0'),
            rest,
        )),
        _ => Some((1, text)),
    }
}

#[tactic(auto, unfolding(crate::specs::Operands::register_number_at))]
fn register_number_of(text: &[u8]) -> Option<(u8, &[u8])>
    ensures { Gives (λ x. (x.0, x.1.now)) result (register_number_at text.now) }
{
    match text {
        [b'1', rest @ ..] => second_digit_of(rest),
        [digit, rest @ ..] if b'0' <= *digit && *digit <= b'9' => Some((*digit - b'0', rest)),
        _ => None,
    }
}

#[tactic(auto, unfolding(crate::specs::Operands::register_at))]
fn register_of(text: &[u8]) -> Option<(u8, &[u8])>
    ensures { Gives (λ x. (x.0, x.1.now)) result (register_at text.now) }
{
    let number = after(b'r', text)?;
    register_number_of(number)
}

#[tactic(auto, unfolding(crate::specs::Operands::in_parentheses_at))]
fn in_parentheses_of(text: &[u8]) -> Option<(u8, &[u8])>
    ensures { Gives (λ x. (x.0, x.1.now)) result (in_parentheses_at text.now) }
{
    let inner = after(b'(', text)?;
    let (reg, rest) = register_of(inner)?;
    let rest = after(b')', rest)?;
    Some((reg, rest))
}

fn incremented_of(reg: u8, text: &[u8]) -> Option<(Place, &[u8])>
    ensures { Gives (λ x. (x.0, x.1.now)) result (incremented reg text.now) }
{
    match text {
        [b'+', rest @ ..] if reg != 15 => Some((Place::AutoInc(reg), rest)),
        _ => Some((Place::Deferred(reg), text)),
    }
}

#[tactic(auto, unfolding(crate::specs::Operands::deferred_at))]
fn deferred_of(text: &[u8]) -> Option<(Place, &[u8])>
    ensures { Gives (λ x. (x.0, x.1.now)) result (deferred_at text.now) }
{
    let (reg, rest) = in_parentheses_of(text)?;
    incremented_of(reg, rest)
}

#[tactic(auto, unfolding(crate::specs::Operands::decremented_at))]
fn decremented_of(text: &[u8]) -> Option<(Place, &[u8])>
    ensures { Gives (λ x. (x.0, x.1.now)) result (decremented_at text.now) }
{
    let (reg, rest) = in_parentheses_of(text)?;
    Some((Place::AutoDec(reg), rest))
}

#[tactic(auto, unfolding(crate::specs::Operands::increment_deferred_at))]
fn increment_deferred_of(text: &[u8]) -> Option<(Place, &[u8])>
    ensures { Gives (λ x. (x.0, x.1.now)) result (increment_deferred_at text.now) }
{
    let (reg, rest) = in_parentheses_of(text)?;
    let rest = after(b'+', rest)?;
    if reg == 15 {
        return None;
    }
    Some((Place::AutoIncDef(reg), rest))
}

#[tactic(auto, unfolding(crate::specs::Operands::absolute_at))]
fn absolute_of(text: &[u8]) -> Option<(Place, &[u8])>
    ensures { Gives (λ x. (x.0, x.1.now)) result (absolute_at text.now) }
{
    let (address, rest) = value_of(text)?;
    Some((Place::Absolute(address), rest))
}

fn marked_size(mark: u8) -> Option<u8>
    ensures { result ≡ marked_size mark }
{
    match mark {
        b'b' => Some(1),
        b'w' => Some(2),
        b'l' => Some(4),
        _ => None,
    }
}

#[tactic(auto, unfolding(crate::specs::Operands::displacement_at))]
fn displacement_of(size: u8, deferred: bool, text: &[u8]) -> Option<(Place, &[u8])>
    ensures { Gives (λ x. (x.0, x.1.now)) result (displacement_at size deferred text.now) }
{
    let number = after(b'^', text)?;
    let (by, rest) = number_of(number)?;
    let (reg, rest) = in_parentheses_of(rest)?;
    let place = Place::Disp {
        size,
        reg,
        by,
        deferred,
    };
    Some((place, rest))
}

#[tactic(auto, unfolding(crate::specs::Operands::displaced_at))]
fn displaced_of(deferred: bool, text: &[u8]) -> Option<(Place, &[u8])>
    ensures { Gives (λ x. (x.0, x.1.now)) result (displaced_at deferred text.now) }
{
    let [mark, rest @ ..] = text else {
        return None;
    };
    let size = marked_size(*mark)?;
    displacement_of(size, deferred, rest)
}

#[tactic(auto, unfolding(crate::specs::Operands::pointer_at))]
fn pointer_of(text: &[u8]) -> Option<(Place, &[u8])>
    ensures { Gives (λ x. (x.0, x.1.now)) result (pointer_at text.now) }
{
    match text {
        [] => None,
        [b'$', rest @ ..] => absolute_of(rest),
        [b'(', ..] => increment_deferred_of(text),
        _ => displaced_of(true, text),
    }
}

#[tactic(auto, unfolding(crate::specs::Operands::place_at))]
fn place_of(text: &[u8]) -> Option<(Place, &[u8])>
    ensures { Gives (λ x. (x.0, x.1.now)) result (place_at text.now) }
{
    match text {
        [] => None,
        [b'(', ..] => deferred_of(text),
        [b'-', rest @ ..] => decremented_of(rest),
        [b'*', rest @ ..] => pointer_of(rest),
        _ => displaced_of(false, text),
    }
}

#[tactic(auto, unfolding(crate::specs::Operands::index_at))]
fn index_of(base: Place, text: &[u8]) -> Option<(Written, &[u8])>
    ensures { Gives (λ x. (x.0, x.1.now)) result (index_at base text.now) }
{
    let (index, rest) = register_of(text)?;
    let rest = after(b']', rest)?;
    Some((Written::Indexed { index, base }, rest))
}

fn indexed_of(place: Place, text: &[u8]) -> Option<(Written, &[u8])>
    ensures { Gives (λ x. (x.0, x.1.now)) result (indexed place text.now) }
{
    match text {
        [b'[', rest @ ..] => index_of(place, rest),
        _ => Some((Written::Plain(place), text)),
    }
}

#[tactic(auto, unfolding(crate::specs::Operands::addressed_at))]
fn addressed_of(text: &[u8]) -> Option<(Written, &[u8])>
    ensures { Gives (λ x. (x.0, x.1.now)) result (addressed_at text.now) }
{
    let (place, rest) = place_of(text)?;
    indexed_of(place, rest)
}

#[tactic(auto, unfolding(crate::specs::Operands::misindexed_at))]
fn misindexed_of(immediate: bool, text: &[u8]) -> Option<(Written, &[u8])>
    ensures { Gives (λ x. (x.0, x.1.now)) result (misindexed_at immediate text.now) }
{
    let (_, rest) = register_of(text)?;
    let rest = after(b']', rest)?;
    Some((Written::Misindexed { immediate }, rest))
}

// An operand without an address; no instruction takes it with an index after it.
fn unaddressed_of(immediate: bool, written: Written, text: &[u8]) -> Option<(Written, &[u8])>
    ensures { Gives (λ x. (x.0, x.1.now)) result (unaddressed immediate written text.now) }
{
    match text {
        [b'[', rest @ ..] => misindexed_of(immediate, rest),
        _ => Some((written, text)),
    }
}

#[tactic(auto, unfolding(crate::specs::Operands::literal_at))]
fn literal_of(text: &[u8]) -> Option<(Written, &[u8])>
    ensures { Gives (λ x. (x.0, x.1.now)) result (literal_at text.now) }
{
    let (number, rest) = number_of(text)?;
    unaddressed_of(false, Written::Literal(number), rest)
}

#[tactic(auto, unfolding(crate::specs::Operands::immediate_at))]
fn immediate_of(text: &[u8]) -> Option<(Written, &[u8])>
    ensures { Gives (λ x. (x.0, x.1.now)) result (immediate_at text.now) }
{
    let dollar = after(b'^', text)?;
    let number = after(b'$', dollar)?;
    let (value, rest) = value_of(number)?;
    unaddressed_of(true, Written::Immediate(value), rest)
}

#[tactic(auto, unfolding(crate::specs::Operands::plain_register_at))]
fn plain_register_of(text: &[u8]) -> Option<(Written, &[u8])>
    ensures { Gives (λ x. (x.0, x.1.now)) result (plain_register_at text.now) }
{
    let (reg, rest) = register_of(text)?;
    unaddressed_of(false, Written::Register(reg), rest)
}

#[tactic(auto, unfolding(crate::specs::Operands::specifier_at))]
fn specifier_of(text: &[u8]) -> Option<(Written, &[u8])>
    ensures { Gives (λ x. (x.0, x.1.now)) result (specifier_at text.now) }
{
    match text {
        [] => None,
        [b'$', rest @ ..] => literal_of(rest),
        [b'i', rest @ ..] => immediate_of(rest),
        [b'r', ..] => plain_register_of(text),
        _ => addressed_of(text),
    }
}

#[tactic(auto, unfolding(crate::specs::Operands::target_at))]
fn target_of(text: &[u8]) -> Option<(Written, &[u8])>
    ensures { Gives (λ x. (x.0, x.1.now)) result (target_at text.now) }
{
    let (value, rest) = value_of(text)?;
    Some((Written::Target(value), rest))
}

// An operand, and the text after it.
#[tactic(auto, unfolding(crate::specs::Operands::operand_at))]
pub fn operand_of(branch: bool, text: &[u8]) -> Option<(Written, &[u8])>
    ensures { Gives (λ x. (x.0, x.1.now)) result (operand_at branch text.now) }
{
    if branch {
        target_of(text)
    } else {
        specifier_of(text)
    }
}

//! A text without its first byte, where that is a given one. All readers of the grammar go on by it.
ghost use Rattle.asm_grammar.specs.Text.{Gives, behind_byte};

// The text after this byte.
#[tactic(auto, unfolding(crate::specs::Text::behind_byte))]
pub fn after(byte: u8, text: &[u8]) -> Option<&[u8]>
    ensures { Gives (λ rest. rest.now) result (behind_byte byte text.now) }
{
    match text {
        [first, rest @ ..] if *first == byte => Some(rest),
        _ => None,
    }
}

//! IPv4 addresses.

ghost use Rattle.std.specs.Prelude.{◌≡◌, ◌↔◌, ◌≤◌, ◌%◌, ℕ, IfSome, Some};
ghost use Rattle.line_text.specs.Addresses.{IsAddress};
ghost use Rattle.ns_words.specs.Addresses.{address_of};

use line_text::address_in;
use virt_topo::MAX_HOST;

#[tactic(auto, unfolding(crate::specs::Addresses::address_of))]
fn value_in(word: &[u8]) -> Option<u32>
    ensures { result ≡ address_of word.now }
{
    address_in(word).ok()
}

/// Reads an address: four numbers without leading zeros, joined by dots. None where the word is malformed.
pub fn address(word: &[u8]) -> Option<u32>
    ensures value { result ≡ address_of word.now }
    ensures exact { (address : ℕ) → (result ≡ Some address) ↔ IsAddress word.now address }
    ensures limits { IfSome result (λ address. (1 ≤ address % 256) × (address % 256 ≤ MAX_HOST)) }
{
    value_in(word)
}

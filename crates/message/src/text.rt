// A presence text of its own, for what is kept and what is written.
ghost use Rattle.std.specs.Prelude.{◌≡◌, ◌-◌, ◌≤◌, ◌++◌, length, drop, replicate, Ok};
ghost use Rattle.encoding.specs.Fields.{presence_text};
ghost use Rattle.message.specs.Owned.{kept_text};

use encoding::fault::WireFault;
use encoding::read::{MAX_PRESENCE_TEXT, check_presence_text};
use std::marker::Model;

// At most 256 bytes that can be a presence text. The places behind them are 0, so that a text is told by its bytes and can be copied as it lies.
#[derive(Clone, Copy)]
pub struct PresenceText {
    bytes: [u8; MAX_PRESENCE_TEXT],
    len: usize,
}

impl Model for PresenceText {
    ghost use Rattle.std.specs.Prelude.{◌≡◌, ◌-◌, ◌≤◌, ◌++◌, ℕ, List, Ok, length, take, drop, replicate};
    ghost use Rattle.encoding.specs.Fields.{presence_text};
    ghost use Rattle.std.proofs.Common.{◌∙◌, ap, subst, sym};
    ghost use Rattle.std.proofs.lemmas.List.{length-take-le, take-append-drop};

    ghost Value = { List ℕ };

    ghost view = { λ t. take t.len t.bytes };

    ghost invariant = { λ t. (t.len ≤ 256) × (length t.bytes ≡ 256) × (drop t.len t.bytes ≡ replicate (256 - t.len) 0) × (presence_text (take t.len t.bytes) ≡ Ok tt) };

    ghost inverse = { λ v. record { bytes = v ++ replicate (256 - length v) 0; len = length v } };

    ghost inverse_ok = { λ t h i. let long = length-take-le t.len t.bytes (subst (λ n. t.len ≤ n) (sym h.1) h.0) in record {
      bytes = (ap (λ n. take t.len t.bytes ++ replicate (256 - n) 0) long ∙ ap (λ ys. take t.len t.bytes ++ ys) (sym h.2) ∙ take-append-drop t.len t.bytes) i;
      len = long i;
    } };
}

// Writes a text over an earlier one in the first `held` places of a row that has zeros behind it, with zeros behind it again.
fn write_over(bytes: &mut [u8], held: usize, text: &[u8])
    requires fits { length text.now ≤ length bytes.old }
    requires held { held ≤ length bytes.old }
    requires zeros { drop held bytes.old ≡ replicate (length bytes.old - held) 0 }
    ensures { bytes.new ≡ text.now ++ replicate (length bytes.old - length text.now) 0 }
{
    let (front, back) = bytes.split_at_mut(text.len());
    front.copy_from_slice(text);
    back[0..held.saturating_sub(text.len())].fill(0);
}

impl PresenceText {
    // A copy of the bytes, where they can be a presence text.
    pub fn new(text: &[u8]) -> Result<PresenceText, WireFault>
        ensures { result ≡ kept_text text.now }
    {
        check_presence_text(text)?;
        Ok(PresenceText::passed(text))
    }

    // A copy of bytes that have been judged.
    pub(crate) fn passed(text: &[u8]) -> PresenceText
        requires { presence_text text.now ≡ Ok tt }
        ensures { result ≡ text.now }
    {
        let mut bytes = [0; MAX_PRESENCE_TEXT];
        write_over(&mut bytes, 0, text);
        PresenceText {
            bytes,
            len: text.len(),
        }
    }

    // Becomes a copy of bytes that have been judged, where it lies.
    pub(crate) fn renew(&mut self, text: &[u8])
        requires { presence_text text.now ≡ Ok tt }
        ensures { self.new ≡ text.now }
    {
        let PresenceText { bytes, len } = self;
        write_over(bytes, *len, text);
        *len = text.len();
    }

    // A copy of the text, which cannot fail: `clone` answers that memory may be wanting, and nothing is allocated here.
    pub fn copy(&self) -> PresenceText
        ensures { result ≡ self.now }
    {
        *self
    }

    // The bytes of the text.
    pub fn as_bytes(&self) -> &[u8]
        ensures value { result.now ≡ self.now }
        ensures short { length result.now ≤ 256 }
        ensures passes { presence_text result.now ≡ Ok tt }
    {
        &self.bytes[0..self.len]
    }
}

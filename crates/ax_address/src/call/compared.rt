//! Calls compared and hashed. Their eight octets are compared as one number, which takes one comparison; to go through the six characters,
//! as what is derived does, takes longer. Called wherever calls are compared, and where they are keys of maps.
ghost use Rattle.std.specs.Prelude.{◌≡◌, ◌∷◌, [], Some, nat_eq, refl};
ghost use Rattle.std.specs.Cmp.{and_equiv, and_per, both_tied, on_equiv, on_per, on_total, partial_equiv_from_equiv, nat_eq_equiv, nat_cmp_total, then_total, unsigned_Decides, unsigned_ties, partial_order_from_agreeing_total};
ghost use Rattle.std.specs.Cmp.Lexicographic.{bytes_decides, nat_list_cmp_total, nat_list_eq_equiv, texts_ties};
ghost use Rattle.std.specs.Hash.{and-Alike, on_Alike, same_Alike};
ghost use Rattle.ax_address.specs.Callsign.{AreDigits, call_cmp, call_writes, digits, number_from, same_call};

use crate::Call;
use std::cmp::Ordering;
use std::hash::{Hash, Hasher};

impl PartialEq for Call {
    ghost eq = { same_call };

    ghost laws = { and_per (on_per (λ c. c.letters) (partial_equiv_from_equiv nat_list_eq_equiv)) (on_per (λ c. c.ssid) (partial_equiv_from_equiv nat_eq_equiv)) };

    #[inline]
    #[tactic(auto, using(crate::proofs::Comparing::same_numbers))]
    fn eq(&self, other: &Call) -> bool {
        self.number() == other.number()
    }
}

impl Eq for Call {
    ghost laws = { and_equiv (on_equiv (λ c. c.letters) nat_list_eq_equiv) (on_equiv (λ c. c.ssid) nat_eq_equiv) };
}

impl PartialOrd for Call {
    ghost partial_cmp = { λ a b. Some (call_cmp a b) };

    ghost laws = { partial_order_from_agreeing_total call_cmp (then_total (on_total (λ c. c.letters) nat_list_cmp_total) (on_total (λ c. c.ssid) nat_cmp_total)) (λ a b. refl)
        (λ a b. both_tied _ _ _ _ (texts_ties a.letters b.letters) (unsigned_ties a.ssid b.ssid)) };

    fn partial_cmp(&self, other: &Call) -> Option<Ordering> {
        Some(self.cmp(other))
    }
}

impl Ord for Call {
    ghost cmp = { call_cmp };

    ghost total = { then_total (on_total (λ c. c.letters) nat_list_cmp_total) (on_total (λ c. c.ssid) nat_cmp_total) };

    ghost matches_partial_cmp = { λ a b. refl };

    ghost matches_eq = { λ a b. both_tied _ _ _ _ (texts_ties a.letters b.letters) (unsigned_ties a.ssid b.ssid) };

    #[inline]
    #[tactic(auto, using(crate::proofs::Comparing::as_numbers))]
    fn cmp(&self, other: &Call) -> Ordering {
        self.number().cmp(&other.number())
    }
}

impl Call {
    /// The six characters, the SSID and 0 as digits to the base 256, the first character the greatest.
    #[inline]
    fn number(&self) -> u64
        ensures value { result ≡ number_from 0 (digits self.now) }
        ensures digits { AreDigits self.now }
    {
        let [a, b, c, d, e, f] = self.letters;
        u64::from_be_bytes([a, b, c, d, e, f, self.ssid, self.spare])
    }
}

impl Hash for Call {
    ghost hash_input = { call_writes };

    ghost respects_eq = { (and-Alike (on_Alike (λ c. c.letters) (same_Alike (λ letters. letters ∷ []) bytes_decides)) (on_Alike (λ c. c.ssid) (same_Alike (λ ssid. (ssid ∷ []) ∷ []) unsigned_Decides))).fed };

    fn hash<H: Hasher>(&self, state: &mut H) {
        state.write(&self.letters);
        state.write_u8(self.ssid);
    }
}

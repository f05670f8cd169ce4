// Sums of cents, printed as dollars.

ghost use Rattle.std.specs.Prelude.{◌≡◌, ◌++◌, Some, OnOk, OnErr};
ghost use Rattle.trust_values.specs.Texts.{signed_text};

use std::alloc::AllocError;
use std::fmt;

/// A sum in cents, which may be zero or negative. It prints as dollars: `-12.05`.
#[derive(Clone, Copy)]
pub struct Dollars(pub i128);

impl fmt::Display for Dollars {
    ghost output = { λ d. Some (signed_text d.0) };

    #[tactic(auto, using(crate::proofs::AmountFacts::dollar_facts))]
    fn fmt<W: fmt::Write>(&self, f: &mut fmt::Formatter<W>) -> fmt::Result {
        let cents = self.0.unsigned_abs();
        let dollars = cents / 100;
        let tens = cents / 10 % 10;
        let ones = cents % 10;
        if self.0 < 0 {
            write!(f, "-{dollars}.{tens}{ones}")
        } else {
            write!(f, "{dollars}.{tens}{ones}")
        }
    }
}

/// Appends a sum in cents as dollars, with a leading `-` if negative. If memory runs out, `out` is unchanged.
pub fn write_amount(amount: i128, out: &mut Vec<u8>) -> Result<(), AllocError>
    ensures ok { OnOk result (out.new.items ≡ out.old.items ++ signed_text amount) }
    ensures err { OnErr result (out.new.items ≡ out.old.items) }
{
    let sum = Dollars(amount);
    let text = format!(in *out.allocator(); "{sum}")?;
    out.extend_from_slice(text.as_bytes())
}

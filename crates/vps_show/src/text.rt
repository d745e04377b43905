// Numbers put into a lent text, each behind a space.
ghost use Rattle.std.specs.Prelude.{◌∷◌};
ghost use Rattle.texts.specs.Adds.{Adds};
ghost use Rattle.text_numbers.specs.Decimal.{decimal};
ghost use Rattle.vps_show.specs.Shown.{spaced};

use text_numbers::put_decimal;
use texts::Text;

// A space and a number's digits.
pub fn put_number(text: &mut Text, n: u64)
    ensures { Adds (32 ∷ decimal n) text.old text.new }
{
    text.put(b" ");
    put_decimal(text, n);
}

pub fn put_numbers(text: &mut Text, numbers: &[u32])
    ensures { Adds (spaced numbers.now) text.old text.new }
{
    for n in numbers {
        put_number(text, u64::from(*n));
    }
}

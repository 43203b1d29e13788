// What a product leaves, once its two differences are public.
ghost use Rattle.std.specs.Prelude.{◌≡◌};
ghost use Rattle.model.specs.Steps as Steps;
ghost use Rattle.sharing.specs.Settings.{setting_of, Fitting};

use field::arithmetic;
use secret::Row;
use sharing::setting::Setting;

// c + a1·b + b1·a + a1·b1, in one pass: every product of a comparison goes through here.
pub fn beaver(setting: Setting, a1: u32, b1: u32, a: Row, b: Row, c: Row) -> Row
    requires { Fitting setting }
    ensures { result.shares ≡ Steps.beaver (setting_of setting) a1 b1 (record { a = a.shares; b = b.shares; c = c.shares }) }
{
    let p = setting.p;
    let both = arithmetic::mul(p, a1, b1);
    Row::of(setting.n, |j| {
        let x = arithmetic::add(p, c.shares[j], arithmetic::mul(p, a1, b.shares[j]));
        let y = arithmetic::add(p, x, arithmetic::mul(p, b1, a.shares[j]));
        arithmetic::add(p, y, both)
    })
}

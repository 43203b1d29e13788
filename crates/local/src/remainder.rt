// MOD's first and last line, and what is public between them.
ghost use Rattle.std.specs.Prelude.{◌≡◌, ◌-◌, ◌^◌, ◌≤◌, ◌<◌};
ghost use Rattle.model.specs.Bytes as Bytes;
ghost use Rattle.model.specs.Fields as Fields;
ghost use Rattle.model.specs.Steps as Steps;
ghost use Rattle.sharing.specs.Settings.{setting_of, Fitting};
ghost use Rattle.local.specs.Unmasking.{publics, MaskBits, unmasked_by};

use crate::bits;
use field::arithmetic;
use secret::Row;
use sharing::rows;
use sharing::setting::Setting;

// "With X = (a + 2^(k−1)) modulo p": a + 2^(k−1).
pub fn raised_row(setting: Setting, k: u32, a: Row) -> Row
    requires { Fitting setting × (1 ≤ k) × (k ≤ 30) × (2 ^ k < setting.p) }
    ensures { result.shares ≡ Steps.plus (setting_of setting) a.shares (Steps.constant (setting_of setting) (2 ^ (k - 1))) }
{
    let half = arithmetic::power_of_two(setting.p, k - 1);
    rows::add_public(setting, a, half)
}

// What is public once C is opened: m, 2^m, C mod 2^m, (C + p) mod 2^m, and the last less the one before it, modulo p.
#[derive(Clone, Copy)]
pub struct Publics {
    pub m: usize,
    pub power: u32,
    pub c0: u32,
    pub c1: u32,
    pub step: u32,
}

#[tactic(auto, using(crate::proofs::Powers::power_above))]
pub fn public_numbers(p: u32, m: u32, c: u32) -> Publics
    requires { Fields.Modulus p × (m < 30) × (2 ^ m < p) × (c < p) }
    ensures { result ≡ publics p m c }
{
    let power = arithmetic::power_of_two(p, m);
    let c0 = c % power;
    let c1 = (c + p) % power;
    let step = arithmetic::sub(p, c1, c0);
    Publics {
        m: m as usize,
        power,
        c0,
        c1,
        step,
    }
}

// "C mod 2^m + f·((C + p) mod 2^m − C mod 2^m) − r mod 2^m + 2^m·u".
pub fn unmasked_row(setting: Setting, x: Publics, bits: &[u32], f: Row, u: Row) -> Row
    requires { MaskBits setting x.m bits.now }
    ensures { result.shares ≡ unmasked_by setting x (Bytes.sevens x.m bits.now) f.shares u.shares }
{
    let low = bits::spelled_row(setting, x.m, bits);
    let c0 = rows::constant_row(setting, x.c0);
    let high = rows::add_scaled(setting, c0, x.step, f);
    let rest = rows::sub_rows(setting, high, low);
    rows::add_scaled(setting, rest, x.power, u)
}

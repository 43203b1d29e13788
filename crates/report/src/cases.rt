// The cases of an input, one after the other.
ghost use Rattle.std.specs.Prelude.{◌<◌, length, IfSome};

// Each call is given what is left of the input, and answers what follows its first case, or `None` where the case is not all there.
pub fn each_case<F: FnMut(&[u8]) -> Option<&[u8]>>(mut s: &[u8], mut run: F)
    requires callable { F.IsAlwaysCallable run }
    requires shorter { (f : F) (x : _) (r : _) (g : F) → F.step f x r g → IfSome r (λ rest. length rest.now < length x.now) }
{
    while let Some(rest) = run(s) {
        s = rest;
    }
}

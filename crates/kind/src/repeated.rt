// A number joined some times by an associative operation.
ghost use Rattle.algebra.specs.Repeated.{IsRepeated};

// A number joined with itself some times, the unit where that is 0 times: by doubling, so that it is joined no more than 64 times.
pub(crate) fn repeated<F: Fn(u32, u32) -> u32>(join: F, unit: u32, times: u32, number: u32) -> u32
    requires { F.IsAlwaysCallable join }
    ensures { IsRepeated (F.post join) unit times number result }
{
    let mut done = unit;
    let mut double = number;
    let mut rest = times;
    while rest != 0 {
        if rest % 2 == 1 {
            done = join(done, double);
        }
        double = join(double, double);
        rest /= 2;
    }
    done
}

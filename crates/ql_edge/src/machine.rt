//! What a program reads.
ghost use Rattle.std.specs.Prelude.{◌≡◌, ◌<◌, ◌≤◌, ◌↔◌, [], length, take, drop, option_map, IfOk, OnErr, IfSome};
ghost use Rattle.ql_edge.specs.Cause.{IsCaused};
ghost use Rattle.ql_edge.specs.Frame.{Keeps};

use crate::{DeviceFault, Volume};

/// The machine that a program runs on: what it shows, and the script that it is given.
pub trait Machine: Volume {
    /// Takes a front of what is left of the script into the front of `out`, and answers how many bytes it took.
    ///
    /// The answer 0 is the end of the script. After a refusal nothing was taken. The files and their stops stay.
    fn read(&mut self, out: &mut [u8]) -> Result<u64, DeviceFault>
        requires { 0 < length out.old }
        ensures within { IfOk result (λ n. n ≤ length out.old) }
        ensures taken { IfOk result (λ n. IfSome (Self.left self.old)
            (λ script. take n out.new ≡ take n script)) }
        ensures front { IfOk result (λ n. IfSome (Self.left self.old)
            (λ script. n ≤ length script)) }
        ensures end { IfOk result (λ n. IfSome (Self.left self.old) (λ script. (n ≡ 0)
            ↔ (script ≡ []))) }
        ensures left { IfOk result (λ n. Self.left self.new ≡ option_map (drop n)
            (Self.left self.old)) }
        ensures refused { OnErr result (Self.left self.new ≡ Self.left self.old) }
        ensures same { Self.same self.old self.new }
        ensures frame { Keeps Self.told Self.fixed self.old self.new }
        ensures cause { IsCaused result (Self.faults self.old) (Self.faults self.new) };
}

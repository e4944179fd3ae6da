//! Two files on a disk that may stop at any moment.
ghost use Rattle.std.specs.Prelude.{◌≡◌, ℕ, ◌+◌, ◌^◌, ◌≤◌, List, length, take, drop, Option, Some, None, option_map, IsSome, Err, IfOk, IfSome, OnOk, OnErr};
ghost use Rattle.ql_edge.specs.Cause.{IsCaused};
ghost use Rattle.ql_edge.specs.Disk.{Files, file_of, other_of, with_piece, with_cut, Torn, Cut, OnFile};
ghost use Rattle.ql_edge.specs.Frame.{Keeps, Stays};
ghost use Rattle.ql_edge.specs.Stops.{Leaves, After, HasShown, Adds, IsSameBut};
ghost use Rattle.ql_edge.specs.declared.fault.DeviceFault.TheVariants as device;

use crate::{DeviceFault, Shows};
use std::alloc::Global;

/// One of the two files of a database.
#[derive(Clone, Copy, Debug, PartialEq, Eq)]
pub enum Which {
    Data,
    Log,
}

/// Two files of a name, on a disk that may stop at any moment.
///
/// `Failed` counts as a fault, and `NoMemory` changes nothing. What a failed write, cut or sync leaves is read from then
/// on as one of the images that a stop in the call may leave.
pub trait Volume: Shows {
    /// The bytes of both files, where they are told: those that a read gives, or will give once a name is attached.
    ghost files: { Self → Option Files };

    /// What a stop may leave now.
    ghost may_leave: { Self → Files → Type 0 };

    /// The moment, as a number that does not fall.
    ghost moment: { Self → ℕ };

    /// What a stop at some moment since `t`, with `n` bytes shown, may have left.
    ghost left_since: { Self → ℕ → ℕ → Files → Type 0 };

    /// The attached name.
    ghost attached: { Self → Option (List ℕ) };

    /// Takes the two files of a name, each made with no bytes where it is absent. What they read is on the disk then.
    ///
    /// After a refusal nothing is attached, and no byte of a file was written.
    fn attach(&mut self, alloc: Global, name: &str) -> Result<(), DeviceFault>
        requires { attached self.old ≡ None }
        ensures attached { OnOk result (attached self.new ≡ Some name.now) }
        ensures stable { OnOk result (IfSome (files self.new)
            (λ f. Leaves (may_leave self.new) (λ c. c ≡ f))) }
        ensures files { files self.new ≡ files self.old }
        ensures stops { Leaves (may_leave self.new) (may_leave self.old) }
        ensures time { Adds (moment self.old) (moment self.new) (left_since self.old)
            (left_since self.new) (may_leave self.old) (HasShown (Self.told self.old)) }
        ensures refused { OnErr result (Self.same self.old self.new) }
        ensures frame { Keeps Self.told Self.left self.old self.new }
        ensures fixed { Self.fixed self.new ≡ Self.fixed self.old }
        ensures cause { IsCaused result (Self.faults self.old) (Self.faults self.new) };

    /// The length of a file.
    fn length(&mut self, which: Which) -> Result<u64, DeviceFault>
        requires { IsSome (attached self.old) }
        ensures length { IfOk result (λ n. IfSome (files self.old)
            (λ f. n ≡ length (file_of which f))) }
        ensures same { Self.same self.old self.new }
        ensures frame { Stays Self.told Self.left Self.fixed attached self.old self.new }
        ensures cause { IsCaused result (Self.faults self.old) (Self.faults self.new) };

    /// Fills `out` with the bytes of a file from a place on. Where bytes are not told, a short file is a fault.
    fn read_at(&mut self, which: Which, at: u64, out: &mut [u8]) -> Result<(), DeviceFault>
        requires attached { IsSome (attached self.old) }
        requires within { IfSome (files self.old)
            (λ f. at + length out.old ≤ length (file_of which f)) }
        ensures read { OnOk result (IfSome (files self.old)
            (λ f. out.new ≡ take (length out.old) (drop at (file_of which f)))) }
        ensures same { Self.same self.old self.new }
        ensures frame { Stays Self.told Self.left Self.fixed attached self.old self.new }
        ensures cause { IsCaused result (Self.faults self.old) (Self.faults self.new) };

    /// Writes the whole piece over what stands there, and past the end.
    fn write_at(&mut self, which: Which, at: u64, piece: &[u8]) -> Result<(), DeviceFault>
        requires attached { IsSome (attached self.old) }
        requires within { IfSome (files self.old) (λ f. at ≤ length (file_of which f)) }
        requires end { at + length piece.now ≤ 2 ^ 62 }
        ensures written { OnOk result (files self.new
            ≡ option_map (with_piece which at piece.now) (files self.old)) }
        ensures other { option_map (other_of which) (files self.new)
            ≡ option_map (other_of which) (files self.old) }
        ensures stops { Leaves (may_leave self.new)
            (After (OnFile which (Torn at (length piece.now))) (may_leave self.old)) }
        ensures time { Adds (moment self.old) (moment self.new) (left_since self.old)
            (left_since self.new) (may_leave self.new) (HasShown (Self.told self.old)) }
        ensures nothing { result ≡ Err device.NoMemory → Self.same self.old self.new }
        ensures frame { Stays Self.told Self.left Self.fixed attached self.old self.new }
        ensures cause { IsCaused result (Self.faults self.old) (Self.faults self.new) };

    /// Shortens a file.
    fn cut(&mut self, which: Which, to: u64) -> Result<(), DeviceFault>
        requires attached { IsSome (attached self.old) }
        requires within { IfSome (files self.old) (λ f. to ≤ length (file_of which f)) }
        ensures cut { OnOk result (files self.new
            ≡ option_map (with_cut which to) (files self.old)) }
        ensures other { option_map (other_of which) (files self.new)
            ≡ option_map (other_of which) (files self.old) }
        ensures stops { Leaves (may_leave self.new)
            (After (OnFile which (Cut to)) (may_leave self.old)) }
        ensures time { Adds (moment self.old) (moment self.new) (left_since self.old)
            (left_since self.new) (may_leave self.new) (HasShown (Self.told self.old)) }
        ensures nothing { result ≡ Err device.NoMemory → Self.same self.old self.new }
        ensures frame { Stays Self.told Self.left Self.fixed attached self.old self.new }
        ensures cause { IsCaused result (Self.faults self.old) (Self.faults self.new) };

    /// Makes what is read of a file stable.
    fn sync(&mut self, which: Which) -> Result<(), DeviceFault>
        requires { IsSome (attached self.old) }
        ensures durable { OnOk result (IfSome (files self.new)
            (λ f. Leaves (may_leave self.new) (λ c. file_of which c ≡ file_of which f))) }
        ensures files { OnOk result (files self.new ≡ files self.old) }
        ensures other { option_map (other_of which) (files self.new)
            ≡ option_map (other_of which) (files self.old) }
        ensures stops { Leaves (may_leave self.new) (may_leave self.old) }
        ensures time { Adds (moment self.old) (moment self.new) (left_since self.old)
            (left_since self.new) (may_leave self.old) (HasShown (Self.told self.old)) }
        ensures nothing { result ≡ Err device.NoMemory → Self.same self.old self.new }
        ensures frame { Stays Self.told Self.left Self.fixed attached self.old self.new }
        ensures cause { IsCaused result (Self.faults self.old) (Self.faults self.new) };

    ghost reads_count: { (x : Self) → IfSome (files x) (may_leave x) };

    ghost counts_now: { (x : Self) (t : ℕ) (c : Files) → t ≤ moment x → may_leave x c → IfSome (Self.told x) (λ s. left_since x t (length s.0) c) };

    ghost only_now: { (x : Self) (n : ℕ) (c : Files) → left_since x (moment x) n c → may_leave x c × HasShown (Self.told x) n };

    ghost same_volume: { (x y : Self) → Self.same x y → (attached y ≡ attached x) × IsSameBut (files x) (files y) (may_leave x) (may_leave y) (moment x) (moment y) (left_since x) (left_since y) (Self.told x) (Self.told y) };
}

//! What holds of crashes, whatever the host. The body does nothing: the law is the contract.
ghost use Rattle.host_core.specs.Crashes.{Image, MayLeave, as_it_reads};
ghost use Rattle.host_core.specs.State.{Files, Pending, State};

/// A crash may leave what is there as it reads, whatever is pending.
pub fn crash_may_leave_all()
    ensures files { (pending : Pending) (now : Files) → Image pending now now }
    ensures state { (s : State) → MayLeave s (as_it_reads s) }
{}

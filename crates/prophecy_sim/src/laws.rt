//! What true obligations are worth.
ghost use Rattle.prophecy_sim.specs.Programs.{TrueObligationsMakeGood};
ghost use Rattle.prophecy_sim.specs.Sample.{SampleIsSound, SampleIsTrue, SampleIsGood};

/// Where all obligations of a function and of those that it may reach by calls are true, the function is good for its contract: no
/// proper call that meets the `requires` panics, overflows or gets stuck, however many steps it runs, and where it has returned the
/// `ensures` are true.
pub fn true_obligations_make_good()
    ensures { TrueObligationsMakeGood }
{}

/// There are programs with all conditions of the law: one of a function with a loop and a branch and of a function that calls it
/// meets them, for the contract that the answer is false, and so both functions are good.
pub fn a_loop_and_a_call_meet_the_conditions()
    ensures sound { SampleIsSound }
    ensures proved { SampleIsTrue }
    ensures good { SampleIsGood }
{}

ghost use Rattle.stream_io.specs.Streams.{Change, Fails};
ghost use Rattle.command_io.specs.declared.ended.Ended.{Ended};
ghost use Rattle.simulate_command.specs.declared.command.Simulation.{Simulation};
ghost use Rattle.simulate_command.specs.Simulate.{IsSimulateDue, IsSimulateEnd};

/// What the end of a simulation says of its output, and which end comes.
pub fn what_a_simulation_says()
    ensures write_fault { (simulation : Simulation) (output : Change) → IsSimulateEnd simulation Ended.WriteFault output
        → Fails output }
    ensures due { (simulation : Simulation) (ended : Ended) (output : Change) → IsSimulateEnd simulation ended output
        → IsSimulateDue ended output }
{}

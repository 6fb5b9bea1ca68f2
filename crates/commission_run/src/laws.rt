//! A law of what comes over the link.
ghost use Rattle.std.specs.Prelude.{List, map};
ghost use Rattle.commissioning.specs.declared.found.Record702.{Record702};
ghost use Rattle.commissioning.specs.declared.target.Target.{Target};
ghost use Rattle.commissioning.specs.Runs.{Exchange};
ghost use Rattle.commissioning.specs.Passed.{IsCommissioned};
ghost use Rattle.commission_run.specs.Ends.{Commission};

/// The replies of an inverter that is commissioned, one to each request, lead to the end.
pub fn replies_commission()
    ensures { (target : Target) (all : List Exchange) (found : Record702) → IsCommissioned target all found
        → Commission target (map (λ exchange. exchange.reply) all) }
{}

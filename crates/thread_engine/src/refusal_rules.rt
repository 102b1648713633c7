// Why a run on threads refuses.
ghost use Rattle.std.specs.Prelude.{Bool};
ghost use Rattle.recover.specs.declared.types.Recovered.{Recovered};
ghost use Rattle.engine_laws.specs.Engine.{Engine};
ghost use Rattle.engine_laws.specs.Origins.{Origin};
ghost use Rattle.engine_laws.specs.Causes.{Causes};
ghost use Rattle.engine_laws.specs.Promises.{IsOrigin};
ghost use Rattle.thread_engine.specs.CoreRuns.{AllRan};

/// Where all cores ran to their ends, each refusal has its cause: for want of room only where the input isn't ample for
/// the part of the key's owner, for its version only where the version found and the key's earlier changes use the
/// versions up, and for its length only where the value is too long.
pub fn every_refusal()
    ensures { (o : Origin) (r : Recovered) (refused : Bool) (e : Engine)
        → IsOrigin o → AllRan o r refused e → Causes o e }
{}

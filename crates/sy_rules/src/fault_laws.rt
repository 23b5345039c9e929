//! Laws of the faults of scripts. Each function does nothing; its contract is the law.
ghost use Rattle.std.specs.Prelude.{◌≡◌, ◌≢◌, [], List, Some};
ghost use Rattle.sy_script.specs.declared.tree.Script.{Script};
ghost use Rattle.sy_rules.specs.declared.fault.PlanFault.{PlanFault};
ghost use Rattle.sy_rules.specs.declared.items.fault.ItemFault.{ItemFault};
ghost use Rattle.sy_script.specs.declared.tree.Param.{Param};
ghost use Rattle.sy_rules.specs.declared.parameters.kind.Kind.{Kind};
ghost use Rattle.sy_rules.specs.check.ObjectFaults.{HasParameterFault, IsWord};
ghost use Rattle.sy_rules.specs.Faults.{first};
ghost use Rattle.sy_rules.specs.check.FaultsThere.{HasFault, HasNoFault};
ghost use Rattle.sy_rules.specs.PlanValue.{IsPlan, Plan};
ghost use Rattle.sy_rules.specs.check.ScriptFaults.{faults_of};

/// The first fault that is found in a script is there.
pub fn first_fault_is_there()
    ensures { (script : Script) (f : PlanFault) → first (faults_of script) ≡ Some f → HasFault script f }
{}

/// In a script that has a fault one is found.
pub fn a_fault_is_found()
    ensures { (script : Script) (f : PlanFault) → HasFault script f → faults_of script ≢ [] }
{}

/// The word of a fault of an object's parameters is the name of one of them, and its place that of the name; or it is the name of one that must
/// be given, and its place that of the object.
pub fn words_are_names()
    ensures { (k : Kind) (ps : List Param) (f : ItemFault) → HasParameterFault k ps f → IsWord k ps f }
{}

/// A script without faults has a plan.
pub fn plan_without_faults()
    ensures { (script : Script) → HasNoFault script → (plan : Plan) × IsPlan script plan }
{}

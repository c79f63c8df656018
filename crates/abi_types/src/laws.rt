//! Laws of graphs: functions with empty bodies, whose contracts are the laws.
ghost use Rattle.std.specs.Prelude.{◌≡◌, List};
ghost use Rattle.abi_types.specs.declared.place.CallShape.{CallShape};
ghost use Rattle.abi_types.specs.declared.rule.Rule.{Rule};
ghost use Rattle.abi_types.specs.Types.{PlainNode};
ghost use Rattle.abi_types.specs.Calls.{ParamsAreCounted, ShapesChangeCallsAlone};
ghost use Rattle.abi_types.specs.Inside.{PartsNameWhatIsInside};
ghost use Rattle.abi_types.specs.Leaves.{LeavesAreThoseInside};
ghost use Rattle.abi_types.specs.Rules.{rule_place};
ghost use Rattle.abi_types.specs.Walks.{LeavesAreEndsOfWalks};

/// A leaf of an object is listed exactly where some walk through members and elements leads to it.
pub fn leaves_are_ends_of_walks()
    ensures { LeavesAreEndsOfWalks }
{}

/// The type of each object inside an object is named by value by a part of the object's type.
pub fn parts_name_what_is_inside()
    ensures { PartsNameWhatIsInside }
{}

/// A leaf object has itself as its only leaf. An aggregate has the leaves of all objects inside it.
pub fn leaves_are_those_inside()
    ensures { LeavesAreThoseInside }
{}

/// A graph with other call places has the same nodes otherwise.
pub fn shapes_change_calls_alone()
    ensures { (nodes : List PlainNode) (calls : List CallShape) → ShapesChangeCallsAlone nodes calls }
{}

/// There are as many types of parameters as parameters.
pub fn params_are_counted()
    ensures { ParamsAreCounted }
{}

/// No two rules have the same place in the order of rules.
pub fn rules_have_places_of_their_own()
    ensures { (one other : Rule) → rule_place one ≡ rule_place other → one ≡ other }
{}

//! What is promised of the circuits of any stations. No code calls it.
ghost use Rattle.station_laws.specs.Laws.{CircuitsOfStationsAreSafe, NodesAreTheirs, RetriesAreTold, StationsAreCircuitRuns};

/// Of any number of stations, whatever is done with their members, where members are added with a call and with settings that a node may
/// have, and acts ask for circuits and links with calls; and of each order in which all that the members were given may have come about:
/// any that keeps the order of each member's own. When all has come, the nodes are as their stations have them. And at each moment what
/// has come is a run of the members' circuits, in which any datagram may come to any of them and none starts again: it leads from these as
/// they start to these as they are then, and tells just what the members' new entries tell of circuits.
///
/// Members need not differ in their calls: a station that starts again is one more station.
pub fn stations_are_circuit_runs()
    ensures nodes { NodesAreTheirs }
    ensures runs { StationsAreCircuitRuns }
{
    station_members::laws::members_are_nodes();
    node_core::laws::inputs_are_circuit_runs();
    node_core::laws::inputs_are_steps();
}

/// Of such stations and each such order, whatever is lost, repeated, delayed, reordered or made up on ports: at each moment where by what
/// the members' entries told until then no datagram and no pair came too late (`IsTimely` and `IsFresh` in `specs/TooLate.antt` of
/// `circuit_set`), each end of a circuit that has a partner has received a beginning of what its partner wrote, with every message that is
/// acknowledged in it, and all of it after the partner's orderly close; an end that has none has received nothing. So it is at each
/// moment of the run that led there, too, also within an input.
///
/// Nothing more is promised once one came too late: what opens an end, or is heeded by one, and was sent by no member of these stations
/// comes too late. And nothing is promised of what arrives at all.
pub fn circuits_of_stations_are_safe()
    ensures { CircuitsOfStationsAreSafe }
{
    stations_are_circuit_runs();
    circuit_set::laws::circuits_safe();
}

/// Of such stations and each such order, whatever comes too late: at each moment an end of a circuit was told that its retries are used up
/// exactly where there was one expiry more than there are retries, counted over what came to it since it was made, since more was
/// acknowledged, or since it began to close.
pub fn retries_are_told()
    ensures { RetriesAreTold }
{
    stations_are_circuit_runs();
    circuit_set::laws::retries_are_told();
}

//! A table of circuit identities, on the contract of a small function.
ghost use Rattle.laws.specs.Identities.{Exchanges, TableHolds, TurnedRound};

/// The identities on one qubit hold, three controlled Nots exchange two qubits, and Hadamards turn a controlled Not round.
pub fn identities_stand() -> u8
    ensures table { TableHolds }
    ensures exchanges { Exchanges }
    ensures turned_round { TurnedRound }
{
    0
}

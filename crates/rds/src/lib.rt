// RDS groups: four words become the 104 bits that go on air. A group's four blocks go out differentially
// coded.
#![tactic(auto)]

pub mod former;

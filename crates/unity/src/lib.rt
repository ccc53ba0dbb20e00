// How near the basis functions' values add up to one: theorems alone (specs/Unity.antt, proofs/UnityLaws.antt and ReadLaws.antt).
#![tactic(auto)]

// Demand 3: key bytes never show in a reply. The claim stands in specs/Secrecy.antt, its proof in proofs/Theorem.antt; specs/CodeRuns.antt says it of calls that meet their contracts. specs/Conversion.antt says that conversion shows no key either. There is no code here.
#![tactic(auto)]

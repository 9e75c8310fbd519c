// What every layer uses: definitions in specs/, and their laws in proofs/.
#![tactic(auto)]

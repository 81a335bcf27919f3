// What coverage means, and the theorem: the trap holds exactly where the pair is covered. No code.
#![tactic(auto)]

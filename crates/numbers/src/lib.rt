// No code: counting words and their laws stand in specs/.
#![tactic(auto)]

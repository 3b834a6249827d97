// No code: what listing and choosing promise, and the laws from the rounds to it, stand in specs/; `listing` and `choosing` have the calls.
#![tactic(auto)]

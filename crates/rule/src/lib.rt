// The repacking rule: definitions of the bytes that it gives and the refusals of a repack, and their laws. No code.
#![tactic(auto)]

// The next copies at once (document 02, W5): definitions in specs/, and in proofs/ the laws that 31 need
// be tested in full but once. The crates above hold the code.

#![tactic(auto)]

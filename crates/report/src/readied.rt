// Laws: what is prepared in zeroed rooms is what a filling is given, and the rooms that a whole plan
// leaves, in proofs/; what contracts cite of them, in specs/.

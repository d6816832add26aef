// Laws of a filling in a given order, in proofs/; what contracts cite of them, in specs/.

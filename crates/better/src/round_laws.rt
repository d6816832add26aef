// Laws of a round of the swap search, in proofs/ alone.

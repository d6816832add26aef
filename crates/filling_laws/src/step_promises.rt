// What a next copy writes, whatever state and rooms it is given: laws in proofs/ alone.

// What follows from the definition of the whole plan for every job: words in specs/, laws in proofs/.

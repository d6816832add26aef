// What follows from the definitions of filling for every job: words in specs/, laws in proofs/.

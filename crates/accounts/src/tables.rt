// The tables that a job is read into (crate kinds), as the definitions of filling see the job. No code.

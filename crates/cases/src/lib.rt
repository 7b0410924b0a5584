// The checked cases A to M of 01, over definitions alone: `specs/Cases.antt` is one table of what they say, with one proof of it.
//
//     specs/OneBucket.antt         the funnel table of 144 slots and reserve 1/8, and what J to M say of it
//     specs/OneBucketLaws.antt     its plan, in which every level is one bucket, and where its paths go
//     specs/FillLaws.antt          its opening and its insertions (case J)
//     specs/CheckLaws.antt         its check (cases K, L and M)
//     specs/FirstInsertLaws.antt   the first insertion into a fresh elastic table (cases H and I)

#![tactic(auto)]

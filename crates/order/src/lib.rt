// What holds of any sequence of calls. It has no code: specs/ says what each call names. From the definitions of the calls,
// specs/ and proofs/ prove that an SPI is what replaying the calls that name it gives, that calls which name nothing in
// common may change places, that a refused call changes nothing, and that a guest reaches nothing which it does not own.
#![tactic(auto)]

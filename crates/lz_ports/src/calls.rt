/// How a counted call of a shelf or a sink in memory goes on.
pub enum Call {
    Spent,
    Listed,
    Fine,
}

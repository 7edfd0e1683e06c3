/// Why a token is refused. The first that holds is answered.
#[derive(Drop, Debug, PartialEq)]
pub enum SigFault {
    /// It isn't three parts in base64url with dots between them.
    Parts,
    /// Its third part isn't the signature of the first two.
    Signature,
    /// Its second part isn't what a token has for some claims.
    Claims,
    /// Its claims ended at this second.
    Expired(u64),
    /// Memory is wanting.
    NoMemory,
}

//! The texts of errors and of logs that a session sends (JSON-RPC 2.0 section 5.1; LSP 3.17, `window/logMessage`).

pub const PARSE_ERROR: &str = "parse error";

pub const INVALID_REQUEST: &str = "invalid request";

pub const METHOD_NOT_FOUND: &str = "method not found";

pub const INVALID_PARAMS: &str = "invalid params";

pub const SERVER_NOT_INITIALIZED: &str = "server not initialized";

pub const REQUEST_CANCELLED: &str = "request cancelled";

/// Before the uri of a document that isn't open.
pub const NOT_OPEN: &str = "not open: ";

/// Before the uri of a document with a change whose range ends before it starts.
pub const BAD_RANGE: &str = "bad range: ";

/// Before the uri of a document that is too long.
pub const TOO_LONG: &str = "text too long: ";

/// Before the uri of one document too many.
pub const TOO_MANY: &str = "too many documents: ";

/// Before the method of a notification with bad parameters.
pub const BAD_PARAMS: &str = "bad params: ";

// The calls of a tree, with their arguments.
ghost use Rattle.std.specs.Prelude.{◌≡◌};
ghost use Rattle.scopes.specs.Meets.{request, request_of};

// What a declaration is handed.
#[derive(Clone, Copy)]
pub struct Item<'a> {
    pub name: &'a [u8],
    pub public: bool,
    pub mark: u16,
}

// A call of a tree: a module entered or left, an item declared, a use made, its bytes and whether it is public; or the mark of a type
// or a function by its name.
#[derive(Clone, Copy)]
pub enum Call<'a> {
    Enter(Item<'a>),
    Exit,
    Alias(Item<'a>),
    Enum(Item<'a>),
    Function(Item<'a>),
    Use(&'a [u8], bool),
    GetAlias(&'a [u8]),
    GetFunction(&'a [u8]),
}

impl<'a> Call<'a> {
    // The call of a code: 1 enter, 2 exit, 3 type alias, 4 enum, 5 function, 6 use, 7 get_alias, any other get_function. What the call has
    // no place for is let go. Ruled out: another call for a code.
    pub fn of_code(code: u8, bytes: &'a [u8], public: bool, mark: u16) -> Call<'a>
        ensures { request_of result ≡ request code bytes.now public mark }
    {
        let item = Item {
            name: bytes,
            public,
            mark,
        };
        match code {
            1 => Call::Enter(item),
            2 => Call::Exit,
            3 => Call::Alias(item),
            4 => Call::Enum(item),
            5 => Call::Function(item),
            6 => Call::Use(bytes, public),
            7 => Call::GetAlias(bytes),
            _ => Call::GetFunction(bytes),
        }
    }
}

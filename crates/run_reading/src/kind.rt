// The kinds of instructions: `InstructionValue`, in the order in which it is declared.
ghost use Rattle.run_reading.specs.Kinds.{Decodes};

#[derive(Clone, Copy, Debug, PartialEq, Eq)]
pub enum Kind {
    LoadLocal,
    LoadContext,
    DeclareLocal,
    DeclareContext,
    StoreLocal,
    StoreContext,
    Destructure,
    Primitive,
    JSXText,
    BinaryExpression,
    NewExpression,
    CallExpression,
    MethodCall,
    UnaryExpression,
    TypeCastExpression,
    JsxExpression,
    ObjectExpression,
    ObjectMethod,
    ArrayExpression,
    JsxFragment,
    RegExpLiteral,
    MetaProperty,
    PropertyStore,
    PropertyLoad,
    PropertyDelete,
    ComputedStore,
    ComputedLoad,
    ComputedDelete,
    LoadGlobal,
    StoreGlobal,
    FunctionExpression,
    TaggedTemplateExpression,
    TemplateLiteral,
    Await,
    GetIterator,
    IteratorNext,
    NextPropertyOf,
    PrefixUpdate,
    PostfixUpdate,
    Debugger,
    StartMemoize,
    FinishMemoize,
}

// The kinds by their numbers.
const KINDS: [Kind; 42] = [
    Kind::LoadLocal,
    Kind::LoadContext,
    Kind::DeclareLocal,
    Kind::DeclareContext,
    Kind::StoreLocal,
    Kind::StoreContext,
    Kind::Destructure,
    Kind::Primitive,
    Kind::JSXText,
    Kind::BinaryExpression,
    Kind::NewExpression,
    Kind::CallExpression,
    Kind::MethodCall,
    Kind::UnaryExpression,
    Kind::TypeCastExpression,
    Kind::JsxExpression,
    Kind::ObjectExpression,
    Kind::ObjectMethod,
    Kind::ArrayExpression,
    Kind::JsxFragment,
    Kind::RegExpLiteral,
    Kind::MetaProperty,
    Kind::PropertyStore,
    Kind::PropertyLoad,
    Kind::PropertyDelete,
    Kind::ComputedStore,
    Kind::ComputedLoad,
    Kind::ComputedDelete,
    Kind::LoadGlobal,
    Kind::StoreGlobal,
    Kind::FunctionExpression,
    Kind::TaggedTemplateExpression,
    Kind::TemplateLiteral,
    Kind::Await,
    Kind::GetIterator,
    Kind::IteratorNext,
    Kind::NextPropertyOf,
    Kind::PrefixUpdate,
    Kind::PostfixUpdate,
    Kind::Debugger,
    Kind::StartMemoize,
    Kind::FinishMemoize,
];

// A word that is no kind.
#[derive(Clone, Copy, Debug, PartialEq, Eq)]
pub struct UnknownKind(pub u32);

impl TryFrom<u32> for Kind {
    type Error = UnknownKind;

    ghost try_from_gives = { Decodes };

    fn try_from(word: u32) -> Result<Self, UnknownKind> {
        KINDS.get(word as usize).copied().ok_or(UnknownKind(word))
    }
}

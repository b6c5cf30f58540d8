// Forms of instructions: what the aux word and the items may be, by kind.
ghost use Rattle.image.specs.Kind.{form_of as form_said};
ghost use Rattle.image_instructions.specs.Forms.{SaysForm};

use self::Aux::{Flag, Function, NameOrNone, TypeOrNone, Unused};
use self::Items::{Pattern, PlacesThen};
use self::Tags::{Arguments, Attributes, Elements, Nothing, Places, Properties};

// What the aux word is.
#[derive(Clone, Copy, Debug, PartialEq, Eq)]
pub enum Aux {
    Unused,
    Flag,
    NameOrNone,
    TypeOrNone,
    Function,
}

// The tags that items may have.
#[derive(Clone, Copy, Debug, PartialEq, Eq)]
pub enum Tags {
    Nothing,
    Places,
    Arguments,
    Elements,
    Properties,
    Attributes,
}

// So many places and then any number of some tags, or a pattern and its value.
#[derive(Clone, Copy, Debug, PartialEq, Eq)]
pub enum Items {
    PlacesThen(u32, Tags),
    Pattern,
}

// What a kind's aux word and items may be.
#[derive(Clone, Copy, Debug, PartialEq, Eq)]
pub struct Form(pub Aux, pub Items);

// The forms of kinds 0 to 41.
const FORMS: [Form; 42] = [
    Form(Unused, PlacesThen(1, Nothing)), // LoadLocal
    Form(Unused, PlacesThen(1, Nothing)), // LoadContext
    Form(Unused, PlacesThen(1, Nothing)), // DeclareLocal
    Form(Unused, PlacesThen(1, Nothing)), // DeclareContext
    Form(Unused, PlacesThen(2, Nothing)), // StoreLocal
    Form(Flag, PlacesThen(2, Nothing)), // StoreContext
    Form(Flag, Pattern), // Destructure
    Form(Unused, PlacesThen(0, Nothing)), // Primitive
    Form(Unused, PlacesThen(0, Nothing)), // JSXText
    Form(Flag, PlacesThen(2, Nothing)), // BinaryExpression
    Form(Unused, PlacesThen(1, Arguments)), // NewExpression
    Form(Unused, PlacesThen(1, Arguments)), // CallExpression
    Form(Unused, PlacesThen(2, Arguments)), // MethodCall
    Form(Unused, PlacesThen(1, Nothing)), // UnaryExpression
    Form(Unused, PlacesThen(1, Nothing)), // TypeCastExpression
    Form(Unused, PlacesThen(0, Attributes)), // JsxExpression
    Form(Unused, PlacesThen(0, Properties)), // ObjectExpression
    Form(Function, PlacesThen(0, Nothing)), // ObjectMethod
    Form(Unused, PlacesThen(0, Elements)), // ArrayExpression
    Form(Unused, PlacesThen(0, Places)), // JsxFragment
    Form(Unused, PlacesThen(0, Nothing)), // RegExpLiteral
    Form(Unused, PlacesThen(0, Nothing)), // MetaProperty
    Form(NameOrNone, PlacesThen(2, Nothing)), // PropertyStore
    Form(NameOrNone, PlacesThen(1, Nothing)), // PropertyLoad
    Form(Unused, PlacesThen(1, Nothing)), // PropertyDelete
    Form(Unused, PlacesThen(3, Nothing)), // ComputedStore
    Form(Unused, PlacesThen(2, Nothing)), // ComputedLoad
    Form(Unused, PlacesThen(2, Nothing)), // ComputedDelete
    Form(TypeOrNone, PlacesThen(0, Nothing)), // LoadGlobal
    Form(Unused, PlacesThen(1, Nothing)), // StoreGlobal
    Form(Function, PlacesThen(0, Nothing)), // FunctionExpression
    Form(Unused, PlacesThen(1, Places)), // TaggedTemplateExpression
    Form(Unused, PlacesThen(0, Places)), // TemplateLiteral
    Form(Unused, PlacesThen(1, Nothing)), // Await
    Form(Unused, PlacesThen(1, Nothing)), // GetIterator
    Form(Unused, PlacesThen(2, Nothing)), // IteratorNext
    Form(Unused, PlacesThen(1, Nothing)), // NextPropertyOf
    Form(Unused, PlacesThen(2, Nothing)), // PrefixUpdate
    Form(Unused, PlacesThen(2, Nothing)), // PostfixUpdate
    Form(Unused, PlacesThen(0, Nothing)), // Debugger
    Form(Unused, PlacesThen(0, Places)), // StartMemoize
    Form(Unused, PlacesThen(1, Nothing)), // FinishMemoize
];

// The form of a kind's number.
pub fn form_of(kind: u32) -> Option<Form>
    ensures { SaysForm result (form_said kind) }
{
    FORMS.get(kind as usize).copied()
}
